//! The position of a walk in one map.

ghost use Rattle.std.specs.Prelude.{◌≡◌, ◌+◌, ◌^◌, ◌<◌, ◌≤◌, min, length};
ghost use Rattle.size_model.specs.Cut.{IsTidy};
ghost use Rattle.rollup.specs.Walk.{pieces_of, cursor_of, reads_of, stop_of, IsAt, IsReached};

use dual_map::DualMap;
use range_map::RangeMap;
use size_core::Steps;
use std::sync::ledger::Ledger;

/// One of the two maps of a data source.
#[derive(Clone, Copy, Debug)]
pub enum Part {
    /// The map of file offsets.
    File,
    /// The map of positions of the address spaces.
    Vm,
}

impl Part {
    /// This map of a data source.
    pub fn map_of<'a>(self, maps: &'a DualMap) -> &'a RangeMap
        ensures value { result.now ≡ pieces_of self maps.now }
        ensures tidy { IsTidy result.now }
    {
        match self {
            Part::File => maps.file_map(),
            Part::Vm => maps.vm_map(),
        }
    }
}

/// How many pieces of a map a walk has passed, and the next piece. If there is none, its start and end are the
/// greatest number.
#[derive(Clone, Copy, Debug)]
pub struct Cursor {
    /// How many pieces the walk has passed.
    pub passed: usize,
    /// The first position of the next piece.
    pub start: u128,
    /// The position after the next piece.
    pub end: u128,
    /// The number of its label.
    pub label: usize,
}

impl Cursor {
    /// Reads the piece after the first `passed` ones.
    pub fn read<L: Ledger>(map: &RangeMap, passed: usize, steps: &mut Steps<L>) -> Cursor
        requires { passed ≤ length map.now }
        ensures value { result ≡ cursor_of map.now passed }
        ensures cost { steps.new + passed ≡ steps.old + min (length map.now) (passed + 1) }
    {
        if passed == map.len() {
            return Cursor {
                passed,
                start: u128::MAX,
                end: u128::MAX,
                label: 0,
            };
        }
        let piece = map.piece(passed, steps);
        Cursor {
            passed,
            start: piece.start,
            end: piece.start + piece.len,
            label: piece.label,
        }
    }

    /// The cursor at a position that it has reached. If the current piece ends there, the next one is read.
    pub fn after<L: Ledger>(self, map: &RangeMap, to: u128, steps: &mut Steps<L>) -> Cursor
        requires reached { IsReached map.now to self }
        requires fits { to ≤ 2 ^ 97 }
        ensures at { IsAt map.now to result }
        ensures cost { steps.new + reads_of map.now self ≡ steps.old + reads_of map.now result }
    {
        if to < self.end {
            return self;
        }
        if self.passed == map.len() {
            return self;
        }
        Cursor::read(map, self.passed + 1, steps)
    }

    /// The next position at which the label changes.
    pub fn stop(&self, at: u128) -> u128
        ensures { result ≡ stop_of at self.now }
    {
        if at < self.start {
            self.start
        } else {
            self.end
        }
    }
}
