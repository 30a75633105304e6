// The different rows that have been met, numbered in the order of their first places and found by
// their hashes. Numbers with one hash are in one chain (specs/Chains.antt).
ghost use Rattle.std.specs.Prelude.{◌≡◌, true, false, ℕ, ◌+◌, ◌<◌, ◌≤◌, length, get_or, set, replicate, IfSome, IsNone};
ghost use Rattle.integers.specs.Vector.{eq_v, AllWithin};
ghost use Rattle.numbering.specs.Chains.{hash_of, head_hash, Chained};
ghost use Rattle.numbering.specs.Limits.{max_rows, max_entry};
ghost use Rattle.numbering.specs.Tables.{row};

use crate::{MAX_ROWS, Row};

// Where the row of each number stands first, and the chains: a link from a hash to the greatest of
// its numbers, and from a number to the greatest below it with its hash.
// Kept: no heap for a map, so chains in tables of fixed size; a link to k is k + 1, and one to no
// number 0 (specs/Chains.antt, `Chained`), in two bytes, for tables that are cleared with zeros.
// Three tables and no structs, as the definitions take them.
#[derive(Drop)]
pub struct Chains {
    pub heads: [u16; MAX_ROWS],
    pub first: [u16; MAX_ROWS],
    pub next: [u16; MAX_ROWS],
    pub count: usize,
}

// The hash of a row.
pub fn hash_of(v: &Row) -> usize
    requires { AllWithin max_entry v.now }
    ensures { result ≡ hash_of v.now }
{
    let x = v[0] + v[1] * 31 + v[2] * 961 + v[3] * 29791;
    x.unsigned_abs() as usize % MAX_ROWS
}

impl Chains {
    // No row yet.
    pub fn new() -> Self
        ensures { (result.heads ≡ replicate max_rows 0) × (result.first ≡ replicate max_rows 0)
            × (result.next ≡ replicate max_rows 0) × (result.count ≡ 0) }
    {
        Chains {
            heads: [0; MAX_ROWS],
            first: [0; MAX_ROWS],
            next: [0; MAX_ROWS],
            count: 0,
        }
    }

    // The number of a row that is equal to this one, which has this hash, if it has been met.
    pub fn find(&self, table: &[Row], v: &Row, hash: usize) -> Option<usize>
        requires few { self.now.count ≤ max_rows }
        requires heads { (c : ℕ) → c < self.now.count → get_or self.now.heads c 0 < length table.now }
        requires hashed { hash ≡ hash_of v.now }
        requires chained { Chained (head_hash table.now self.now.heads) self.now.first self.now.next self.now.count }
        ensures found { IfSome result (λ c. (c < self.now.count)
            × (row table.now (get_or self.now.heads c 0) ≡ v.now)) }
        ensures none { IsNone result → (c : ℕ) → c < self.now.count
            → eq_v v.now (row table.now (get_or self.now.heads c 0)) ≡ false }
    {
        let mut link = self.first[hash];
        while let Some(number) = usize::from(link).checked_sub(1) {
            if *v == table[self.heads[number] as usize] {
                return Some(number);
            }
            link = self.next[number];
        }
        None
    }

    // The next number, for row i, which has this hash: it leads its chain.
    pub fn add(&mut self, i: usize, hash: usize) -> usize
        requires { (self.old.count < max_rows) × (i < max_rows) × (hash < max_rows) }
        ensures number { (result ≡ self.old.count) × (self.new.count ≡ self.old.count + 1) }
        ensures heads { self.new.heads ≡ set self.old.heads self.old.count i }
        ensures next { self.new.next ≡ set self.old.next self.old.count (get_or self.old.first hash 0) }
        ensures first { self.new.first ≡ set self.old.first hash (self.old.count + 1) }
    {
        let number = self.count;
        self.count += 1;
        self.heads[number] = i as u16;
        self.next[number] = self.first[hash];
        self.first[hash] = self.count as u16;
        number
    }
}
