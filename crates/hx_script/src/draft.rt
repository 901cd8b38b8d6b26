//! The life of a trace that is being read.

ghost use Rattle.std.specs.Prelude.{◌≡◌, ◌≤◌, ◌<◌, [], length, true, false, IfOk, OnOk, OnErr, None, IsTrue};
ghost use Rattle.hx_events.specs.Places.{place_of};
ghost use Rattle.hx_events.specs.Resources.{is_resource};
ghost use Rattle.hx_events.specs.Texts.{IsEntryOf};
ghost use Rattle.hx_script.specs.Traces.{no_pairs, new_life, named_life, paired_life, longer_life, ended_life, tailed_life, IsFoundOf, IsWellRead};

use crate::trace::TraceLife;
use hx_events::{Bytes, Ended, Entry, Items, Life, Names, PairFound};
use std::alloc::{AllocError, Global};
use std::marker::Model;

const PAIRS: usize = 64;

#[tactic(auto, unfolding(crate::specs::Traces::no_pairs))]
fn no_pairs(alloc: Global) -> Result<Vec<PairFound>, AllocError>
    ensures { IfOk result (λ pairs. pairs.items ≡ no_pairs) }
{
    let mut pairs = Vec::with_capacity(alloc, PAIRS)?;
    for _i in 0..PAIRS {
        pairs.push(PairFound::Empty)?;
    }
    Ok(pairs)
}

/// The life in hand. Contracts see it as the trace has it.
#[derive(Drop)]
pub struct Draft {
    names: Names,
    base: Vec<PairFound>,
    history: Vec<Entry>,
    ended: Ended,
    first: u64,
    tail: Vec<Bytes>,
    tail_line: u64,
}

impl Model for Draft {
    ghost use Rattle.std.specs.Prelude.{false};
    ghost use Rattle.hx_script.specs.declared.trace.TraceLife.{TraceLife};
    ghost use Rattle.hx_script.specs.Traces.{IsWellRead, drafted};

    ghost Value = { TraceLife };

    ghost view = { λ d. drafted d.names d.base.items d.history.items d.ended d.first d.tail.items d.tail_line };

    ghost invariant = { λ d. IsWellRead (drafted d.names d.base.items d.history.items d.ended d.first d.tail.items d.tail_line) };
}

impl Draft {
    pub fn new(alloc: Global) -> Result<Draft, AllocError>
        ensures { IfOk result (λ draft. draft ≡ new_life) }
    {
        let base = no_pairs(alloc)?;
        Ok(Draft {
            names: Names::new(alloc),
            base,
            history: Vec::new(alloc),
            ended: Ended::Script,
            first: 0,
            tail: Vec::new(alloc),
            tail_line: 0,
        })
    }

    pub fn names(&self) -> &Names
        ensures { result.now ≡ self.now.life.names }
    {
        &self.names
    }

    pub fn first(&self) -> u64
        ensures value { result ≡ self.now.first }
        ensures known { result ≤ 200001 }
    {
        self.first
    }

    /// One name more. It stands before all pairs and entries.
    pub fn name(&mut self, name: Bytes) -> Result<(), AllocError>
        requires resource { is_resource name ≡ true }
        requires new { place_of name self.old.life.names ≡ None }
        requires room { length self.old.life.names < 256 }
        requires no_pairs { self.old.life.base ≡ no_pairs }
        requires no_entries { self.old.life.history ≡ [] }
        ensures ok { OnOk result (self.new ≡ named_life self.old name) }
        ensures unchanged { OnErr result (self.new ≡ self.old) }
    {
        match self.names.add(name.into_vec()) {
            Ok(_) => Ok(()),
            Err(_) => Err(AllocError),
        }
    }

    pub fn pair(&mut self, pair: u64, found: PairFound)
        requires pair { pair < 64 }
        requires known { IsFoundOf self.old.life.names found }
        ensures { self.new ≡ paired_life self.old pair found }
    {
        self.base[pair as usize] = found;
    }

    pub fn entry(&mut self, entry: Entry, first: u64) -> Result<(), AllocError>
        requires known { IsEntryOf self.old.life.names entry }
        requires first { first ≤ 200001 }
        ensures ok { OnOk result (self.new ≡ longer_life self.old entry first) }
        ensures unchanged { OnErr result (self.new ≡ self.old) }
    {
        self.history.push(entry)?;
        self.first = first;
        Ok(())
    }

    pub fn end(&mut self, ended: Ended, first: u64, tail_line: u64)
        requires first { first ≤ 200001 }
        requires tail_line { tail_line ≤ 200001 }
        ensures { self.new ≡ ended_life self.old ended first tail_line }
    {
        self.ended = ended;
        self.first = first;
        self.tail_line = tail_line;
    }

    pub fn tail(&mut self, line: Bytes) -> Result<(), AllocError>
        ensures ok { OnOk result (self.new ≡ tailed_life self.old line) }
        ensures unchanged { OnErr result (self.new ≡ self.old) }
    {
        self.tail.push(line)?;
        Ok(())
    }

    /// The life as it stands.
    pub fn finish(self) -> TraceLife
        ensures same { result ≡ self }
        ensures well_read { IsWellRead result }
    {
        let Draft {
            names,
            base,
            history,
            ended,
            first,
            tail,
            tail_line,
        } = self;
        TraceLife {
            life: Life {
                names,
                base: Items::new(base),
                moment: 0,
                faults: 0,
                history: Items::new(history),
                ended,
                guarded: false,
            },
            first,
            tail: Items::new(tail),
            tail_line,
        }
    }
}
