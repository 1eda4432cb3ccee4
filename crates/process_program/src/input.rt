// What a call reads.
use process_flow::{Failed, Source, StdSource};
use std::fs::File;
use std::io::Read;

/// What a call reads: standard input, or a file in place of it.
#[derive(Drop)]
pub enum CallInput<R: Read + Drop> {
    Standard(StdSource<R>),
    Named(StdSource<File>),
}

impl<R: Read + Drop> Source for CallInput<R> {
    ghost use Rattle.process_program.specs.Inputs.{by_input};

    ghost left = { by_input ⟦<StdSource<R> as Source>⟧.left ⟦<StdSource<File> as Source>⟧.left };

    ghost faults = { by_input ⟦<StdSource<R> as Source>⟧.faults ⟦<StdSource<File> as Source>⟧.faults };

    fn take(&mut self, buf: &mut [u8]) -> Result<usize, Failed> {
        match self {
            CallInput::Standard(source) => source.take(buf),
            CallInput::Named(source) => source.take(buf),
        }
    }
}
