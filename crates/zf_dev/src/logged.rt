//! Devices that note what passes them. The notes exist in proofs alone; a device over them does what the one
//! below does. So what a call did is known of devices, too, that expose nothing of their bytes.

ghost use Rattle.std.specs.Prelude.{◌≡◌, [], Some};

use crate::log::Log;
use crate::{Failed, LoadError, Shelf, Sink, Source};
use std::alloc::Global;

/// Another source, and what its reads gave.
#[derive(Drop)]
pub struct LoggedSource<S> {
    source: S,
    log: Log,
}

impl<S> LoggedSource<S> {
    ghost use Rattle.zf_dev.specs.Logs.{source_below, source_given};

    pub fn new(source: S) -> LoggedSource<S>
        ensures below { source_below result ≡ source }
        ensures given { source_given result ≡ [] }
    {
        LoggedSource {
            source,
            log: Log::new(),
        }
    }

    /// The source below.
    pub fn below(&self) -> &S
        ensures { result.now ≡ source_below self.now }
    {
        &self.source
    }
}

impl<S: Source> Source for LoggedSource<S> {
    ghost use Rattle.zf_dev.specs.Logs.{source_below, source_given, source_ended};

    ghost Kept = { S.Kept };

    ghost contents = { λ s. S.contents (source_below s) };

    // Just these were given.
    ghost gave = { λ s bytes. source_given s ≡ bytes };

    ghost ended = { λ s. source_ended s };

    ghost is_exact = { λ s. S.is_exact (source_below s) };

    ghost faults = { λ s. S.faults (source_below s) };

    ghost ends_seen = { λ s. S.ends_seen (source_below s) };

    ghost never_fails = { λ s. S.never_fails (source_below s) };

    ghost kept = { λ s. S.kept (source_below s) };

    fn read(&mut self, buf: &mut [u8]) -> Result<usize, Failed> {
        let count = self.source.read(buf)?;
        self.log.note(&[], &buf[..count]);
        Ok(count)
    }

    fn read_ahead(&mut self) {
        self.source.read_ahead();
    }
}

/// Another sink, and what its writes took. It exposes that, and nothing of what the other exposes.
#[derive(Drop)]
pub struct LoggedSink<O> {
    sink: O,
    log: Log,
}

impl<O> LoggedSink<O> {
    ghost use Rattle.zf_dev.specs.Logs.{sink_below, sink_taken};

    pub fn new(sink: O) -> LoggedSink<O>
        ensures below { sink_below result ≡ sink }
        ensures taken { sink_taken result ≡ [] }
    {
        LoggedSink {
            sink,
            log: Log::new(),
        }
    }

    /// The sink below.
    pub fn below(&self) -> &O
        ensures { result.now ≡ sink_below self.now }
    {
        &self.sink
    }
}

impl<O: Sink> Sink for LoggedSink<O> {
    ghost use Rattle.zf_dev.specs.Logs.{sink_below, sink_taken};

    ghost Kept = { O.Kept };

    ghost contents = { λ s. Some (sink_taken s) };

    ghost faults = { λ s. O.faults (sink_below s) };

    ghost is_flushed = { λ s. O.is_flushed (sink_below s) };

    ghost kept = { λ s. O.kept (sink_below s) };

    fn write(&mut self, bytes: &[u8]) -> Result<usize, Failed> {
        let count = self.sink.write(bytes)?;
        self.log.note(&[], &bytes[..count]);
        Ok(count)
    }

    fn flush(&mut self) -> Result<(), Failed> {
        self.sink.flush()
    }
}

/// Another shelf, and its looks, loads and saves: each that was begun, and each that was answered well.
#[derive(Drop)]
pub struct LoggedShelf<F> {
    shelf: F,
    looked: Log,
    asked: Log,
    loaded: Log,
    begun: Log,
    saved: Log,
}

impl<F> LoggedShelf<F> {
    ghost use Rattle.zf_dev.specs.Logs.{shelf_below, shelf_looked, shelf_asked, shelf_loaded, shelf_begun, shelf_saved};

    pub fn new(shelf: F) -> LoggedShelf<F>
        ensures below { shelf_below result ≡ shelf }
        ensures looked { shelf_looked result ≡ [] }
        ensures asked { shelf_asked result ≡ [] }
        ensures loaded { shelf_loaded result ≡ [] }
        ensures begun { shelf_begun result ≡ [] }
        ensures saved { shelf_saved result ≡ [] }
    {
        LoggedShelf {
            shelf,
            looked: Log::new(),
            asked: Log::new(),
            loaded: Log::new(),
            begun: Log::new(),
            saved: Log::new(),
        }
    }

    /// The shelf below.
    pub fn below(&self) -> &F
        ensures { result.now ≡ shelf_below self.now }
    {
        &self.shelf
    }
}

impl<F: Shelf> Shelf for LoggedShelf<F> {
    ghost use Rattle.zf_dev.specs.Logs.{shelf_below, NotesFront, NotesLoad, NotesSave};

    ghost files = { λ s. F.files (shelf_below s) };

    ghost faults = { λ s. F.faults (shelf_below s) };

    ghost fronts = { λ old name count answer new. NotesFront old name new
        × F.fronts (shelf_below old) name count answer (shelf_below new) };

    ghost loads = { λ old name answer new. NotesLoad old name answer new
        × F.loads (shelf_below old) name answer (shelf_below new) };

    ghost saves = { λ old name bytes ok new. NotesSave old name bytes ok new
        × F.saves (shelf_below old) name bytes ok (shelf_below new) };

    ghost never_fails = { λ s. F.never_fails (shelf_below s) };

    ghost always_saves = { λ s. F.always_saves (shelf_below s) };

    fn front(
        &mut self,
        alloc: Global,
        name: &str,
        max: u64,
        count: usize,
    ) -> Result<Vec<u8>, LoadError> {
        self.looked.note(name.as_bytes(), &[]);
        self.shelf.front(alloc, name, max, count)
    }

    fn load(&mut self, alloc: Global, name: &str, max: u64) -> Result<Vec<u8>, LoadError> {
        self.asked.note(name.as_bytes(), &[]);
        let bytes = self.shelf.load(alloc, name, max)?;
        self.loaded.note(name.as_bytes(), &bytes);
        Ok(bytes)
    }

    fn save(&mut self, name: &str, bytes: &[u8]) -> Result<(), Failed> {
        self.begun.note(name.as_bytes(), bytes);
        self.shelf.save(name, bytes)?;
        self.saved.note(name.as_bytes(), bytes);
        Ok(())
    }
}
