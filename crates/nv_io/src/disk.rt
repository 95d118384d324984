// Files on the disk.
ghost use Rattle.std.specs.Prelude.{◌≡◌, None, ⊤};

use crate::files::Files;
use crate::standard::{read_from, write_to};
use crate::streams::{Got, Put, Sink, Source, count_fault};
use std::fs;
use std::fs::File;
use std::rt::Files as SystemFiles;

/// The bytes of a file. What it gives is not told. Each read is a call of the system.
#[derive(Drop)]
pub struct DiskSource {
    file: File,
    faults: u64,
}

impl Source for DiskSource {
    ghost words = { λ s. record {
      taken = None;
      left = None;
      reads = None;
      faults = s.faults;
    } };

    fn read<R>(&mut self, _rt: &R, into: &mut [u8]) -> Got {
        read_from(&mut self.file, &mut self.faults, into)
    }
}

/// A file that is written anew. What it takes is not told. Each write is a call of the system.
#[derive(Drop)]
pub struct DiskSink {
    file: File,
    faults: u64,
}

impl Sink for DiskSink {
    ghost words = { λ s. record {
      taken = None;
      faults = s.faults;
    } };

    fn write<R>(&mut self, _rt: &R, piece: &[u8]) -> Put {
        write_to(&mut self.file, &mut self.faults, piece)
    }

    fn finish<R>(&mut self, _rt: &R) {}
}

/// The files of the disk by their paths. What comes back is not told, and it is closed.
#[derive(Drop)]
pub struct DiskFiles {
    faults: u64,
}

impl DiskFiles {
    pub fn new() -> DiskFiles
        ensures { (⟦<DiskFiles as Files>⟧.words result).faults ≡ 0 }
    {
        DiskFiles { faults: 0 }
    }
}

impl Files for DiskFiles {
    type From = DiskSource;

    type To = DiskSink;

    ghost may = { λ _. ⊤ };

    ghost words = { λ f. record {
      returned_sources = None;
      returned_sinks = None;
      lent_sources = None;
      lent_sinks = None;
      faults = f.faults;
    } };

    fn source<R: SystemFiles<File = File>>(&mut self, rt: &R, name: &str) -> Option<DiskSource> {
        let Ok(file) = fs::open(rt, name) else {
            count_fault(&mut self.faults);
            return None;
        };
        Some(DiskSource { file, faults: 0 })
    }

    fn sink<R: SystemFiles<File = File>>(&mut self, rt: &R, name: &str) -> Option<DiskSink> {
        let Ok(file) = fs::create(rt, name) else {
            count_fault(&mut self.faults);
            return None;
        };
        Some(DiskSink { file, faults: 0 })
    }

    fn back(&mut self, _file: DiskSink) {}

    fn back_source(&mut self, _file: DiskSource) {}
}
