// The pairs of an order, and the rows of bits that say who is before whom, kept closed.

ghost use Rattle.std.specs.Prelude.{ℕ, ◌≡◌, ◌<◌, length, map, true, IfOk, OnOk, OnErr};
ghost use Rattle.sp_spec_system.specs.Order as spec;
ghost use Rattle.sp_spec_system.specs.Equating.{order_changed};
ghost use Rattle.sp_spec.specs.Change.{time_replaced};
ghost use Rattle.sp_order.specs.Ordered.{nothing, place, with_time, with_order};

use crate::row::Row;
use crate::rows::{free_row, has_at, join, leads_back, place_of, widen, widened};
use std::alloc::{AllocError, Global};
use std::marker::Model;

// Times in the order in which they came, the pairs of their order, and for each time the row of those that it is before.
#[derive(Drop)]
pub(crate) struct Closure {
    times: Vec<u128>,
    pairs: Vec<(u128, u128)>,
    rows: Vec<Row>,
    words: usize,
}

impl Model for Closure {
    ghost use Rattle.sp_order.specs.Ordered.{Ordered};
    ghost use Rattle.sp_order.specs.Closed.{IsClosed};

    ghost Value = { Ordered };

    ghost view = { λ o. record { times = o.times.items; pairs = o.pairs.items } };

    ghost invariant = { λ o. IsClosed o.times.items o.pairs.items o.rows.items o.words };
}

fn changed(small: u128, large: u128, time: u128) -> u128
    ensures { result ≡ time_replaced small large time }
{
    if time == large { small } else { time }
}

impl Closure {
    // No times.
    pub(crate) fn new(alloc: Global) -> Closure
        ensures { result ≡ nothing }
    {
        Closure {
            times: Vec::new(alloc),
            pairs: Vec::new(alloc),
            rows: Vec::new(alloc),
            words: 0,
        }
    }

    // The pairs that were added.
    pub(crate) fn pairs(&self) -> &[(u128, u128)]
        ensures { result.now ≡ self.now.pairs }
    {
        &self.pairs
    }

    // Whether a path of the pairs leads from the first time to the second.
    pub(crate) fn before(&self, first: u128, second: u128) -> bool
        ensures { result ≡ spec.is_before self.now.pairs first second }
    {
        let from = place_of(&self.times, first);
        let to = place_of(&self.times, second);
        has_at(&self.rows, from, to)
    }

    // Whether a time is before itself.
    pub(crate) fn has_cycle(&self) -> bool
        ensures { result ≡ spec.is_cyclic self.now.pairs }
    {
        leads_back(&self.rows)
    }

    // An equal one.
    pub(crate) fn copy(&self, alloc: Global) -> Result<Closure, AllocError>
        ensures { IfOk result (λ o. o ≡ self.now) }
    {
        let times = Vec::from_slice(alloc, &self.times)?;
        let pairs = Vec::from_slice(alloc, &self.pairs)?;
        let rows = widened(alloc, &self.rows, self.words)?;
        Ok(Closure {
            times,
            pairs,
            rows,
            words: self.words,
        })
    }

    // The place of the time, which is put behind the others if it stands at none.
    fn put(&mut self, alloc: Global, time: u128) -> Result<usize, AllocError>
        ensures times { OnOk result (self.new.times ≡ with_time self.old.times time) }
        ensures place { IfOk result (λ a. a ≡ place self.new.times time) }
        ensures within { IfOk result (λ a. a < length self.new.times) }
        ensures pairs { self.new.pairs ≡ self.old.pairs }
    {
        let at = place_of(&self.times, time);
        let count = self.times.len();
        if at == count {
            widen(alloc, &mut self.rows, &mut self.words, count)?;
            free_row(alloc, &mut self.rows, self.words, count)?;
            self.times.push(time)?;
        }
        Ok(at)
    }

    // Adds the pair: the first time is before the second.
    pub(crate) fn add(&mut self, alloc: Global, first: u128, second: u128) -> Result<(), AllocError>
        ensures added { OnOk result (self.new ≡ with_order self.old first second) }
        ensures unchanged { OnErr result (self.new.pairs ≡ self.old.pairs) }
    {
        let from = self.put(alloc, first)?;
        let to = self.put(alloc, second)?;
        let mut mask = self.rows[to].copy(alloc)?;
        mask.add(to);
        self.pairs.push((first, second))?;
        join(&mut self.rows, from, &mask);
        Ok(())
    }

    // Whether `small` in place of `large` changes none of the pairs.
    pub(crate) fn stays(&self, small: u128, large: u128) -> bool
        ensures { result ≡ true → map (order_changed (time_replaced small large)) self.now.pairs ≡ self.now.pairs }
    {
        if small == large {
            return true;
        }
        place_of(&self.times, large) == self.times.len()
    }
}

// The order of these pairs, with `small` in place of `large`.
pub(crate) fn with_changed(
    alloc: Global,
    small: u128,
    large: u128,
    pairs: &[(u128, u128)],
) -> Result<Closure, AllocError>
    ensures { IfOk result (λ o. o.pairs ≡ map (order_changed (time_replaced small large)) pairs.now) }
{
    let mut made = Closure::new(alloc);
    for pair in pairs {
        let first = changed(small, large, pair.0);
        let second = changed(small, large, pair.1);
        made.add(alloc, first, second)?;
    }
    Ok(made)
}
