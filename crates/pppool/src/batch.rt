//! The input of a run.
use crate::gate::Gate;
use crate::limits::{Block, Workers};
use ppshelf::{Disk, Shelf};
use ppunit::{Setting, Unit};

/// The units of a list, their files, and how they are divided among workers.
pub struct Batch<'a, 'b, D: Disk, G: Gate> {
    /// The file table. Each unit's file is in it.
    pub shelf: &'a Shelf<D>,
    /// The disk, from which a file is read when it is first needed.
    pub disk: &'b D,
    /// The gate that a worker enters before each unit.
    pub gate: &'b G,
    /// What all units share. Its profile is the file table's.
    pub setting: &'b Setting,
    /// The units, at most 65,535.
    pub units: &'a [Unit],
    /// The number of workers.
    pub workers: Workers,
    /// The number of units that a worker claims at a time.
    pub block: Block,
}

impl<D: Disk, G: Gate> Drop for Batch<'_, '_, D, G> {
    fn drop(self) {
        let Batch {
            shelf: _,
            disk: _,
            gate: _,
            setting: _,
            units: _,
            workers: _,
            block: _,
        } = self;
    }
}
