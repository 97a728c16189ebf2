//! Commands on a store and a two-way cache over it.

ghost use Rattle.std.specs.Prelude.{Bool, List, refl};
ghost use Rattle.zf_header.specs.declared.header.Header.{Header};
ghost use Rattle.zf_run.specs.Pairs.{pair_session, IsPair, two_setting_of, two_width};

use std::alloc::AllocError;
use zf_base::{Lane, Pos, Shape};
use zf_cache::raised;
use zf_commands::{
    Changing, Kind, Scripted, Subject, Target, fill_line, kind_of, read, sum_within, write,
};
use zf_script::{Cmd, Refusal, Reply, Stats};
use zf_store::Store;
use zf_twoway::TwoWay;
use zf_view::Window;

/// A store and a two-way cache over it, as what the lines of a script work on.
#[derive(Drop)]
pub(crate) struct Pair<'a, T: Lane, const D: usize> {
    pub(crate) store: &'a mut Store<T, D>,
    pub(crate) cache: &'a mut TwoWay<T, D>,
    pub(crate) window: Window,
}

impl<'a, T: Lane, const D: usize> Subject for Pair<'a, T, D> {
    ghost use base.Fml.{GName};

    ghost Code = { List Bool };

    ghost Kept = { Header × GName × GName };

    ghost kept = { λ p. (p.store.now.header, p.store.ghost_name, p.cache.ghost_name) };

    ghost setting = { λ k. two_setting_of T.width k.0 };

    ghost sound = { λ p. IsPair T.value T.width D p.store.now p.cache.now };

    ghost session = { λ p. pair_session T.value p.store.now p.cache.now p.window };

    fn sizes(&self) -> Shape {
        self.store.header().shape
    }
}

impl<'a, T: Lane, const D: usize> Target for Pair<'a, T, D> {
    ghost whole = { λ p. refl };

    fn window(&self) -> Window {
        self.window
    }

    fn use_window(&mut self, window: Window) {
        self.window = window;
    }

    #[inline]
    fn value_at(&mut self, b: u64, place: usize) -> i128 {
        let store = &mut *self.store;
        let cache = &mut *self.cache;
        cache.get(store, b, place).to_wide()
    }

    fn sum_of_block(&mut self, b: u64) -> i128 {
        let store = &mut *self.store;
        let cache = &mut *self.cache;
        let size = store.header().shape.extent(b).size;
        sum_within(cache.block(store, b), &size)
    }

    fn use_lines(&mut self, count: u32) -> Result<(), AllocError> {
        let store = &mut *self.store;
        let cache = &mut *self.cache;
        cache.relined(store, raised(count))
    }

    fn counts(&self) -> Stats {
        self.cache.stats()
    }
}

impl<'a, T: Lane, const D: usize> Changing<T> for Pair<'a, T, D> {
    ghost same_width = { λ k. two_width T.width k.0 };

    fn put(&mut self, p: Pos, v: T) {
        let store = &mut *self.store;
        let cache = &mut *self.cache;
        let (b, place) = store.header().shape.place(p);
        cache.set(store, b, place, v);
    }

    fn increase(&mut self, p: Pos, v: T) {
        let store = &mut *self.store;
        let cache = &mut *self.cache;
        let (b, place) = store.header().shape.place(p);
        let line = cache.block_mut(store, b);
        line[place] = line[place].add(v);
    }

    fn fill_block(&mut self, b: u64, v: T) {
        let store = &mut *self.store;
        let cache = &mut *self.cache;
        fill_line(cache.block_mut(store, b), v);
    }

    fn flush_all(&mut self) {
        let store = &mut *self.store;
        let cache = &mut *self.cache;
        cache.flush(store);
    }

    fn discard_all(&mut self) {
        let cache = &mut *self.cache;
        cache.discard();
    }
}

impl<'a, T: Lane, const D: usize> Scripted for Pair<'a, T, D> {
    fn obey(&mut self, cmd: Cmd) -> Option<Reply> {
        match kind_of(cmd) {
            Kind::Read(asked) => read(self, asked),
            Kind::Write(asked) => write::<T, _>(self, asked),
            _ => Some(Reply::Refused(Refusal::Word)),
        }
    }
}
