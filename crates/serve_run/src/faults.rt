// What ends a dialogue.
ghost use Rattle.std.specs.Prelude.{◌≡◌};
ghost use Rattle.command_input.specs.Outputs.{output, IsTold};
ghost use Rattle.serve_run.specs.Dialogue.{fault_line, fault_of, status_of};

use command_input::tell;
use command_refusals::Status;
use driver_answers::Cut;
use process_flow::Sink;

/// Why a dialogue ends before its last line. It has a line.
#[derive(Clone, Copy, Debug, PartialEq, Eq)]
pub enum Fault {
    /// A call of the source failed.
    ReadFault,
    /// A call of the rack failed.
    DiskFault,
    NoMemory,
}

fn status_of(fault: Fault) -> Status
    ensures { result ≡ status_of fault }
{
    match fault {
        Fault::ReadFault => Status::ReadFault,
        Fault::DiskFault => Status::DiskFault,
        Fault::NoMemory => Status::NoMemory,
    }
}

fn fault_line(fault: Fault) -> &'static [u8]
    ensures { result.now ≡ fault_line fault }
{
    match fault {
        Fault::ReadFault => b"read fault\n",
        Fault::DiskFault => b"disk fault\n",
        Fault::NoMemory => b"no memory\n",
    }
}

/// Tells of a fault.
pub fn tell_fault<K: Sink>(sink: &mut K, fault: Fault) -> Status
    ensures { IsTold (status_of fault) (fault_line fault) (output K.Sink sink.old) (output K.Sink sink.new) result }
{
    tell(sink, fault_line(fault), status_of(fault))
}

/// Why a dialogue ends with a line that was not answered.
pub fn fault_of(cut: Cut) -> Fault
    ensures { result ≡ fault_of cut }
{
    match cut {
        Cut::DiskFault => Fault::DiskFault,
        Cut::NoMemory => Fault::NoMemory,
    }
}
