//! What a script works on: what its file is opened as.

ghost use Rattle.std.specs.Prelude.{◌≡◌, length, IfOk, IfErr};
ghost use Rattle.zf_base.specs.Widths.{width_of};
ghost use Rattle.zf_dev.specs.Faults.{HasCause};
ghost use Rattle.zf_program.specs.Accesses.{named};
ghost use Rattle.zf_program.specs.Sending.{IsDone};
ghost use Rattle.zf_program.specs.Subjects.{subject, IsFresh, HasRoom, Ran, filed_now};
ghost use Rattle.zf_program.specs.Loaded.{IsAccessed, StandsFor, IsRefused};
ghost use Rattle.zf_program.specs.Rungs.{Closes};

use crate::commands::scripts::{line_count, save};
use crate::commands::sending::send;
use crate::commands::twoway;
use crate::status::Status;
use std::alloc::Global;
use zf_array::Array;
use zf_base::Lane;
use zf_const::ConstArray;
use zf_dev::{Shelf, Sink};
use zf_header::Header;
use zf_run::RunEnd;
use zf_words::{Access, Caching, Name};

/// A file that was loaded, with the header that it begins with.
#[derive(Drop)]
pub struct Loaded {
    pub header: Header,
    pub file: Vec<u8>,
}

/// What a script works on.
#[derive(Drop)]
pub enum Target<T: Lane, const D: usize> {
    /// An array, in whose cache each block has one line.
    Direct(Array<T, D>),
    /// Codes, and a two-way cache over them.
    TwoWay(twoway::Opened<T, D>),
    /// The values of a stream, which are only read.
    Look(ConstArray<T, D>),
}

impl<T: Lane, const D: usize> Target<T, D> {
    /// Opens a file by the access that a script has to it.
    pub fn open(alloc: Global, access: Access, loaded: Loaded) -> Result<Self, Status>
        requires accessed { IsAccessed access loaded }
        requires same_type { T.width ≡ width_of loaded.header.ty }
        requires dims { length loaded.header.shape ≡ D }
        ensures stands { IfOk result (λ t. StandsFor (subject T.value T.width t) access loaded.file.items) }
        ensures fresh { IfOk result (λ t. IsFresh t) }
        ensures room { IfOk result (λ t. HasRoom t) }
        ensures refused { IfErr result (IsRefused access loaded.file.items) }
    {
        let Loaded { header, file } = loaded;
        match access {
            Access::Run(Caching::Direct(lines)) => {
                let count = line_count(lines, &header.shape);
                match Array::from_file(alloc, &header, file, count) {
                    Ok(array) => Ok(Target::Direct(array)),
                    Err(fault) => Err(Status::from(fault)),
                }
            }
            Access::Run(Caching::TwoWay(lines)) => {
                match twoway::open(alloc, &header, file, lines) {
                    Ok(pair) => Ok(Target::TwoWay(pair)),
                    Err(fault) => Err(Status::from(fault)),
                }
            }
            Access::Look(lines) => {
                let count = line_count(lines, &header.shape);
                match ConstArray::from_file(alloc, &header, file, count) {
                    Ok(array) => Ok(Target::Look(array)),
                    Err(fault) => Err(Status::from(fault)),
                }
            }
        }
    }

    /// Runs a script on it, and writes the replies.
    pub fn run<O: Sink>(&mut self, alloc: Global, script: &[u8], out: &mut O) -> RunEnd
        requires fresh { IsFresh self.old }
        requires room { HasRoom self.old }
        ensures ran { Ran (subject T.value T.width self.old) script.now
            (O.contents out.old) (O.contents out.new) (filed_now (subject T.value T.width self.new)) result }
        ensures room { HasRoom self.new }
        ensures cause { HasCause (result ≡ RunEnd.Write) (O.faults out.old) (O.faults out.new) }
    {
        match self {
            Target::Direct(array) => zf_run::run(alloc, array, script, out),
            Target::TwoWay(pair) => {
                zf_run::run_two(&mut pair.store, &mut pair.cache, script, out)
            }
            Target::Look(array) => zf_run::look(array, script, out),
        }
    }

    /// Hands on the replies to a script that was run with this status, and saves what is to be saved of it.
    pub fn close<O: Sink, F: Shelf>(
        &mut self,
        name: &Name,
        status: Status,
        out: &mut O,
        shelf: &mut F,
    ) -> Status
        requires room { HasRoom self.old }
        requires done { IsDone status }
        ensures { Closes O.Sink F.Shelf (named name.now (filed_now (subject T.value T.width self.old)))
            status result out.old out.new shelf.old shelf.new }
    {
        match self {
            Target::Direct(array) => save(name, array.save_bytes(), status, out, shelf),
            Target::TwoWay(pair) => twoway::save_store(name, pair, status, out, shelf),
            Target::Look(_) => send(status, out),
        }
    }
}
