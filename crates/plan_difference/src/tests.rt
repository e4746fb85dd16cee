//! Differences of small plans.

use crate::difference;
use net_base::NoMemory;
use of_match::{Command, Entry, Instr, Instrs, Key, Match, Tables, apply};
use std::alloc::Global;
use std::test::Fail;

/// An entry: its table, its priority, and the table that it leads to.
type Row = (u8, u16, u8);

fn entry(alloc: Global, (table, priority, next): Row) -> Result<Entry, NoMemory> {
    let key = Key {
        table,
        priority,
        fields: Match::from_slice(alloc, &[])?,
    };
    let mut instrs = Instrs::new(alloc);
    instrs.push(Instr::Goto(next))?;
    Ok(Entry { key, instrs })
}

fn are_same(a: &Tables, b: &Tables) -> bool {
    for entry in a.iter() {
        match b.get(&entry.key) {
            Some(held) if held == entry => {}
            _ => return false,
        }
    }
    a.len() == b.len()
}

fn tables(alloc: Global, rows: &[Row]) -> Result<Tables, NoMemory> {
    let mut tables = Tables::new(alloc);
    for row in rows {
        tables.add(entry(alloc, *row)?)?;
    }
    Ok(tables)
}

/// What a command does, in letters, and its table and priority.
fn shown(command: &Command) -> (&'static str, u8, u16) {
    match command {
        Command::Add(entry) => ("add", entry.key.table, entry.key.priority),
        Command::DeleteStrict(key) => ("delete", key.table, key.priority),
        Command::DeleteAll => ("wipe", 0, 0),
    }
}

type Case = (
    &'static [Row],
    &'static [Row],
    &'static [(&'static str, u8, u16)],
);

/// Two plans, and the commands between them by hand.
const CASES: [Case; 6] = [
    (&[], &[], &[]),
    (&[(0, 1, 1), (3, 2, 4)], &[(0, 1, 1), (3, 2, 4)], &[]),
    (
        &[],
        &[(3, 1, 4), (0, 2, 1)],
        &[("add", 0, 2), ("add", 3, 1)],
    ),
    (
        &[(0, 1, 1), (7, 1, 8)],
        &[],
        &[("delete", 0, 1), ("delete", 7, 1)],
    ),
    (&[(3, 10, 4)], &[(3, 10, 5)], &[("add", 3, 10)]),
    (
        &[(0, 1, 1), (3, 30, 4), (7, 10, 8), (7, 20, 8)],
        &[(0, 1, 1), (3, 20, 4), (7, 10, 9), (7, 20, 8), (8, 1, 9)],
        &[
            ("add", 3, 20),
            ("delete", 3, 30),
            ("add", 7, 10),
            ("add", 8, 1),
        ],
    ),
];

#[test]
fn plans_differ_by_these_commands(rt: HostRuntime) -> Result<(), Fail> {
    let alloc = rt.alloc();
    for (from, to, commands) in CASES {
        let batch = difference(alloc, &tables(alloc, from)?, &tables(alloc, to)?)?;
        assert_eq!(rt; batch.len(), commands.len());
        for (command, wanted) in batch.as_slice().iter().zip(commands) {
            assert!(rt; shown(command) == *wanted);
        }
    }
    Ok(())
}

/// Up to eight rows, by the bits of a number.
fn rows(seed: u64) -> [Row; 8] {
    let mut rows = [(0, 0, 0); 8];
    let mut bits = seed;
    for row in &mut rows {
        *row = (
            (bits % 3) as u8,
            (bits / 3 % 3) as u16,
            (bits / 9 % 2) as u8,
        );
        bits /= 18;
    }
    rows
}

/// Whether the commands of the difference lead from the one plan to the other.
fn leads(alloc: Global, from: &[Row], to: &[Row]) -> Result<bool, NoMemory> {
    let mut held = tables(alloc, from)?;
    let wanted = tables(alloc, to)?;
    let batch = difference(alloc, &held, &wanted)?;
    for command in batch.as_slice() {
        apply(alloc, &mut held, command)?;
    }
    Ok(are_same(&held, &wanted))
}

#[test]
fn ten_thousand_pairs_lead_there(rt: HostRuntime) -> Result<(), Fail> {
    let alloc = rt.alloc();
    let mut seed: u64 = 1;
    for _ in 0..10_000 {
        let from = rows(seed);
        seed = seed
            .wrapping_mul(6_364_136_223_846_793_005)
            .wrapping_add(1_442_695_040_888_963_407);
        let to = rows(seed);
        let fewer = (seed % 9) as usize;
        assert!(rt; leads(alloc, &from[..fewer], &to)?);
    }
    Ok(())
}
