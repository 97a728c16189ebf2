//! Devices that note what passes them: they do what those below do, and what they noted is known.

ghost use Rattle.std.specs.Prelude.{◌≡◌, [], ◌∷◌, ◌++◌, OnOk, IfOk};
ghost use Rattle.zf_dev.specs.Logs.{sink_taken, shelf_asked, shelf_loaded, shelf_begun, shelf_saved};

use std::alloc::Global;
use std::test::Fail;
use zf_dev::{
    Failed, LoadError, LoggedShelf, LoggedSink, LoggedSource, MemShelf, MemSink, MemSource, Shelf,
    Sink, fill, write_all,
};

// Of any sink it is known what was written.
fn send<O: Sink>(text: &[u8], out: &mut LoggedSink<O>) -> Result<(), Failed>
    ensures { OnOk result (sink_taken out.new ≡ sink_taken out.old ++ text.now) }
{
    write_all(out, text)
}

// Of any shelf it is known what was loaded, and what was saved.
fn copy<F: Shelf>(
    alloc: Global,
    from: &str,
    to: &str,
    shelf: &mut LoggedShelf<F>,
) -> Result<Vec<u8>, LoadError>
    ensures asked { shelf_asked shelf.new ≡ shelf_asked shelf.old ++ (from.now, []) ∷ [] }
    ensures loaded { IfOk result (λ bytes. shelf_loaded shelf.new
        ≡ shelf_loaded shelf.old ++ (from.now, bytes.items) ∷ []) }
    ensures begun { IfOk result (λ bytes. shelf_begun shelf.new
        ≡ shelf_begun shelf.old ++ (to.now, bytes.items) ∷ []) }
    ensures saved { IfOk result (λ bytes. shelf_saved shelf.new
        ≡ shelf_saved shelf.old ++ (to.now, bytes.items) ∷ []) }
{
    let bytes = shelf.load(alloc, from, 9)?;
    match shelf.save(to, &bytes) {
        Ok(()) => Ok(bytes),
        Err(_) => Err(LoadError::Failed),
    }
}

#[test]
fn what_is_noted_is_done(rt: HostRuntime) -> Result<(), Fail> {
    let alloc = rt.alloc();
    let mut src = LoggedSource::new(MemSource::new(b"abcde".to_vec(alloc)?, Vec::new(alloc), 2));
    let mut buf = [9; 4];
    assert!(rt; fill(&mut src, &mut buf) == Ok(4) && buf == [b'a', b'b', b'c', b'd']);
    assert!(rt; src.below().left() == b"e".as_slice());
    let mut out = LoggedSink::new(MemSink::new(alloc, Vec::new(alloc), 2));
    assert!(rt; send(b"abcde", &mut out) == Ok(()) && out.flush() == Ok(()));
    assert!(rt; out.below().bytes() == b"abcde".as_slice());
    Ok(())
}

#[test]
fn a_shelf_is_noted_and_asked(rt: HostRuntime) -> Result<(), Fail> {
    let alloc = rt.alloc();
    let mut shelf = LoggedShelf::new(MemShelf::new(alloc, [2].to_vec(alloc)?));
    assert!(rt; shelf.save("a", b"text") == Ok(()));
    assert!(rt; shelf.load(alloc, "b", 9) == Err(LoadError::Missing));
    assert!(rt; shelf.load(alloc, "a", 9) == Err(LoadError::Failed));
    let bytes = copy(alloc, "a", "b", &mut shelf).ok().ok_or("copied")?;
    assert!(rt; bytes.as_slice() == b"text".as_slice());
    assert!(rt; shelf.below().file("b") == Some(b"text".as_slice()) && shelf.below().faults() == 1);
    Ok(())
}
