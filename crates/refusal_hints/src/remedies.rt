// What to do about each refusal: the texts of hints.
ghost use Rattle.std.specs.Prelude.{◌≡◌};
ghost use Rattle.refusal_hints.specs.Remedies.{ending_hint, expected_remedy, file_remedy, limit_remedy, report_remedy, starved_hint, what_remedy};

use command_refusals::{FileFault, Quantity, ReportFault};
use process_text::{Expected, What};

pub(crate) const WORDS: &str =
    "'tps help' lists the commands, and 'tps help COMMAND' tells how one is called";

pub(crate) const PROCESS: &str = "a process begins here, with the word 'process'";

pub(crate) const NAME: &str = "a name has 1 to 32 of a-z, 0-9 and _, and begins with a letter";

pub(crate) const STEP: &str =
    "a step begins here, with its kind c, p, r or cr; or a choice, with 'choose'";

pub(crate) const OPERATION: &str =
    "behind a step's name stands the name of an operation, as its table [[op]] has it";

pub(crate) const KEY: &str =
    "behind the operation stands a key, a whole number from 0 to 4294967295";

pub(crate) const AMOUNT: &str =
    "behind the key stands an amount, a whole number from -1000000000 to 1000000000";

pub(crate) const NUMBER: &str =
    "behind 'tries' and 'undo' stands a number from 1 to 64, behind 'refuse' and 'undorefuse' one from 0 to 99";

pub(crate) const NEXT: &str =
    "behind a step stand its options, the next step, 'choose', or the word that closes the block: 'end' of a process, 'or' or 'done' of an alternative";

pub(crate) const TRIES: &str =
    "steps of kind r and cr alone have 'tries', and it stands in front of their other options";

pub(crate) const UNDO: &str =
    "steps of kind c and cr alone have 'undo' and 'undorefuse'; options stand in the order tries, undo, refuse, undorefuse, each once";

pub(crate) const REFUSE: &str =
    "options stand in the order tries, undo, refuse, undorefuse, each once";

pub(crate) const UNENDED: &str =
    "the process in front of it isn't closed yet; write 'end' behind its last step, and 'done' in front of that for each choice still open";

pub(crate) const UNDONE: &str = "a choice is still open; write 'done' behind its last alternative";

pub(crate) const UNCHOSEN: &str =
    "no choice is open here, so a step, 'choose' or 'end' may stand; a choice begins with 'choose'";

pub(crate) const CLOSE: &str =
    "behind 'done' stands the word that closes the block around the choice: 'end', 'or' or 'done'; behind a 'then' steps may follow where 'tps expand' reads the text, which writes them out";

pub(crate) const OR: &str = "a choice has at least two alternatives, with 'or' between them";

pub(crate) const SAME_NAME: &str =
    "a name stands in this line for the second time; processes have names that differ, and so have the steps of a process";

pub(crate) const PROCESSES: &str =
    "a text has at most 256 processes; give the others in another call";

pub(crate) const STEPS: &str = "a process has at most 256 steps; divide it into several";

pub(crate) const NESTING: &str = "at most 16 choices stand inside one another";

pub(crate) const ALTERNATIVES: &str = "a choice has at most 8 alternatives";

pub(crate) const BAD_TOML: &str =
    "the document stops being TOML here; a string over several lines stands between \"\"\" and \"\"\"";

pub(crate) const VERSION: &str = "'version' is the number 1 or 2, and every scenario has it";

pub(crate) const CONFLICTS: &str =
    "'conflicts' is an array of pairs of operations: [\"A\", \"B\"] in version 1, and [\"A\", \"B\", \"key\"] or [\"A\", \"B\", \"always\"] in version 2";

pub(crate) const TEXT: &str = "'processes' is a string";

pub(crate) const OP: &str = "operations are tables, each below a line [[op]]";

pub(crate) const OP_NAME: &str =
    "each table [[op]] has a 'name' of 1 to 32 of a-z, 0-9 and _, which begins with a letter";

pub(crate) const SUBSYSTEM: &str = "each table [[op]] has a 'subsystem', a number from 0 to 7";

pub(crate) const VERB: &str =
    "each table [[op]] has a 'verb': of subsystems 0 to 3 add, take or look, of 4 and 5 put or look, of 6 and 7 hold, free or look";

pub(crate) const NO_KEY: &str =
    "there is no such key; a scenario has version, conflicts, processes and tables [[op]], and these have name, subsystem and verb";

pub(crate) const UNKNOWN_OPERATION: &str =
    "no table [[op]] has this name, which stands here first; correct it, or add the table";

pub(crate) const SAME_OPERATION: &str = "two tables [[op]] have this name; rename one of them";

pub(crate) const CATALOG: &str =
    "the files were made for other operations or conflicts; use the scenario that 'tps init' was given, or make files for this one in another folder";

pub(crate) const COMMUTING: &str =
    "the order of these two can matter to the books, so name them in 'conflicts', also where both are the same operation";

pub(crate) const LINE: &str =
    "a line of a session is one of: start NAME, admit I, next, finish N done, finish N refused, queue N done, queue N refused, flush, abort I, show, stop; a line of a log is start NAME, do I.STEP, undo I.STEP or end I, of a process that started, and a step that it has";

pub(crate) const INPUT: &str = "an input has at most 1048576 bytes";

pub(crate) const OPERATIONS: &str = "a scenario has at most 256 operations";

pub(crate) const ALL_PROCESSES: &str =
    "files hold so many processes and no more; go on with new files in another folder";

pub(crate) const ACTIVE: &str = "so many processes may be active and no more; start fewer";

pub(crate) const ENTRIES: &str =
    "files hold so many steps, undos and ends and no more; go on with new files in another folder, or start fewer";

pub(crate) const UNFINISHED: &str =
    "a process was cut off before its end; 'tps restart' completes it, or 'tps serve' where a driver does the work of the steps";

pub(crate) const NOT_EMPTY: &str =
    "files are made but once; use a folder without them, or remove tps.0 to tps.8 to start over";

pub(crate) const BAD_HEADER: &str =
    "the file is missing or empty, or none of the program's; in a folder without files 'tps init' makes them from a scenario";

pub(crate) const BAD_FILE: &str =
    "the file was changed or cut by something else; bring back all nine files from one moment";

pub(crate) const BOOK: &str =
    "the store and the journal are of different moments; bring back all nine files from one moment";

pub(crate) const REPORT_LINE: &str =
    "a report has the sections conflicts, history, completion, ends, causes, trace and serial, in this order";

pub(crate) const STEP_REFUSED: &str =
    "this step of the trace exchanges entries that conflict, or takes out what isn't a step with its undo behind it";

pub(crate) const NOT_SERIAL: &str =
    "what the trace leads to has the steps of two processes in turns from this place on";

pub(crate) const SERIAL_DIFFERS: &str =
    "what the trace leads to and the list below 'serial' are different from this place on";

pub(crate) const READ_FAULT: &str = "standard input could not be read to its end";

pub(crate) const DISK_FAULT: &str =
    "a call of the system on tps.0 to tps.8 failed; look at the disk and the permissions, and then 'tps restart'";

pub(crate) const EXHAUSTED: &str =
    "the step was refused as often as it may be tried; 'tps restart' gives it its tries anew";

pub(crate) const MEMORY: &str = "memory ran out; call again with more of it free";

const NOT_A_LOG: &str =
    "hint: the last line names an event that its process may not do there, or an operation that the scenario lacks; look whether the log has all events in their order, or add the operation\n";

const TOO_LONG: &str =
    "hint: an audit takes at most 128 events, and 256 steps in the processes that started together; audit a part of the log, from a moment at which nobody was active\n";

const ILL_FORMED: &str =
    "hint: refusals can leave this process with no way on, or never lead to this alternative; give it another way on behind its commit points\n";

const WRITE_FAULT: &str = "hint: standard output could not be written to its end\n";

const BROKEN_OFF: &str =
    "hint: a call of the system on tps.0 to tps.8 failed; look at the disk and the permissions, and then 'tps restart'\n";

const STUCK: &str =
    "hint: the last line names the process that is stuck, and its step, which was refused as often as it may be tried; 'tps restart' gives it its tries anew\n";

const NOT_REDUCED: &str =
    "hint: from this event on it could not have been completed as good as one process after another; look which conflict the scheduler of this log doesn't heed\n";

const STARVED: &str = "hint: memory ran out; call again with more of it free\n";

/// What stands on standard error behind an answer that is no refusal, by the number of the status.
pub fn ending_hint(status: u8) -> &'static str
    ensures { result.now ≡ ending_hint status }
{
    match status {
        2 => NOT_A_LOG,
        3 => ILL_FORMED,
        4 => TOO_LONG,
        9 => WRITE_FAULT,
        10 => BROKEN_OFF,
        11 => STUCK,
        12 => NOT_REDUCED,
        13 => STARVED,
        _ => "",
    }
}

/// What stands there where memory was wanting for what there is to say.
pub fn starved_hint() -> &'static str
    ensures { result.now ≡ starved_hint }
{
    STARVED
}

/// What stands where something was expected.
pub(crate) fn expected_remedy(expected: Expected) -> &'static str
    ensures { result.now ≡ expected_remedy expected }
{
    match expected {
        Expected::Process => PROCESS,
        Expected::Name => NAME,
        Expected::Step => STEP,
        Expected::Operation => OPERATION,
        Expected::Key => KEY,
        Expected::Amount => AMOUNT,
        Expected::Number => NUMBER,
        Expected::Next => NEXT,
        Expected::Close => CLOSE,
        Expected::Or => OR,
    }
}

/// About a limit of a text of processes.
pub(crate) fn what_remedy(what: What) -> &'static str
    ensures { result.now ≡ what_remedy what }
{
    match what {
        What::Processes => PROCESSES,
        What::Steps => STEPS,
        What::Nesting => NESTING,
        What::Alternatives => ALTERNATIVES,
    }
}

/// About a limit.
pub(crate) fn limit_remedy(quantity: Quantity) -> &'static str
    ensures { result.now ≡ limit_remedy quantity }
{
    match quantity {
        Quantity::Input => INPUT,
        Quantity::Operations => OPERATIONS,
        Quantity::Processes => ALL_PROCESSES,
        Quantity::Active => ACTIVE,
        Quantity::Entries => ENTRIES,
    }
}

/// About files.
pub(crate) fn file_remedy(fault: FileFault) -> &'static str
    ensures { result.now ≡ file_remedy fault }
{
    match fault {
        FileFault::NotEmpty(_) => NOT_EMPTY,
        FileFault::BadHeader(_) => BAD_HEADER,
        FileFault::BadRecord(_, _) | FileFault::BadHistory(_) | FileFault::BadBook(_, _) => {
            BAD_FILE
        }
    }
}

/// About a report.
pub(crate) fn report_remedy(fault: ReportFault) -> &'static str
    ensures { result.now ≡ report_remedy fault }
{
    match fault {
        ReportFault::BadText(_) => REPORT_LINE,
        ReportFault::StepRefused(_) => STEP_REFUSED,
        ReportFault::NotSerial(_) => NOT_SERIAL,
        ReportFault::SerialDiffers(_) => SERIAL_DIFFERS,
    }
}
