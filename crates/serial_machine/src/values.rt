//! What the names of a script mean.
ghost use Rattle.std.specs.Prelude.{◌≡◌, List, ℕ, Some, None, Option, OnOk};
ghost use Rattle.std.specs.Option.{option_copied};
ghost use Rattle.std.specs.Str.{bytes_eq};
ghost use Rattle.serial_model.specs.Serial as model;
ghost use Rattle.serial_model.specs.Serial.{with_value, matrix_in, list_in, no_values};
ghost use Rattle.serial_machine.specs.Values.{seen, seen_value, values_of, place_in, IsMatrix, IsList};

use run_data::Mat;
use std::alloc::{AllocError, Global};

/// A matrix, or the rows of a factorization's pivots, counted from 1.
#[derive(Drop)]
pub enum Value {
    Whole(Mat),
    Rows(Vec<u32>),
}

/// A name and its value; none where it is dropped, or taken out to be changed.
#[derive(Drop)]
pub struct Named {
    pub name: Vec<u8>,
    pub value: Option<Value>,
}

/// The values of all names. Where a name stands twice, the first counts.
#[derive(Drop)]
pub struct Values {
    pub entries: Vec<Named>,
}

impl Named {
    // Whether it is the entry of a name.
    fn is(&self, name: &[u8]) -> bool
        ensures { result ≡ bytes_eq self.now.name.items name.now }
    {
        self.name.as_slice() == name
    }
}

// The value of a name in a list.
fn find_in<'a>(entries: &'a [Named], name: &[u8]) -> Option<&'a Value>
    ensures { seen (option_copied result) ≡ values_of entries.now name.now }
{
    for entry in entries {
        if entry.is(name) {
            return entry.value.as_ref();
        }
    }
    None
}

// The place of a name, or the end.
#[tactic(auto, using(crate::proofs::Entries::place_in_step, crate::proofs::Entries::place_in_here, crate::proofs::Entries::place_in_end))]
fn place_of(entries: &[Named], name: &[u8]) -> usize
    ensures { result ≡ place_in entries.now name.now }
{
    let mut at = 0;
    while at < entries.len() && !entries[at].is(name) {
        at += 1;
    }
    at
}

impl Values {
    /// No name has a value.
    pub fn new(alloc: Global) -> Values
        ensures { values_of result.entries.items ≡ no_values }
    {
        Values {
            entries: Vec::new(alloc),
        }
    }

    /// The value of a name.
    pub fn get(&self, name: &[u8]) -> Option<&Value>
        ensures { seen (option_copied result) ≡ values_of self.now.entries.items name.now }
    {
        find_in(&self.entries, name)
    }

    /// The matrix that a name means.
    pub fn matrix(&self, name: &[u8]) -> &Mat
        requires { IsMatrix (values_of self.now.entries.items name.now) }
        ensures { result.now ≡ matrix_in (values_of self.now.entries.items name.now) }
    {
        match self.get(name) {
            Some(Value::Whole(m)) => m,
            _ => unreachable!(),
        }
    }

    /// The pivot list that a name means.
    pub fn rows(&self, name: &[u8]) -> &[u32]
        requires { IsList (values_of self.now.entries.items name.now) }
        ensures { result.now ≡ list_in (values_of self.now.entries.items name.now) }
    {
        match self.get(name) {
            Some(Value::Rows(rows)) => rows,
            _ => unreachable!(),
        }
    }

    /// Takes the value of a name out; after it the name has none.
    #[tactic(auto, using(crate::proofs::Entries::value_there, crate::proofs::Entries::value_nowhere, crate::proofs::Entries::value_taken, crate::proofs::Entries::value_untaken))]
    pub fn take(&mut self, name: &[u8]) -> Option<Value>
        ensures value { seen result ≡ values_of self.old.entries.items name.now }
        ensures after { values_of self.new.entries.items ≡ with_value (values_of self.old.entries.items) name.now None }
    {
        let at = place_of(&self.entries, name);
        if at < self.entries.len() {
            self.entries[at].value.take()
        } else {
            None
        }
    }

    /// Takes out the matrix that a name means.
    pub fn take_matrix(&mut self, name: &[u8]) -> Mat
        requires { IsMatrix (values_of self.old.entries.items name.now) }
        ensures value { result ≡ matrix_in (values_of self.old.entries.items name.now) }
        ensures after { values_of self.new.entries.items ≡ with_value (values_of self.old.entries.items) name.now None }
    {
        match self.take(name) {
            Some(Value::Whole(m)) => m,
            _ => unreachable!(),
        }
    }

    /// Gives a name a value.
    pub fn put(&mut self, alloc: Global, name: &[u8], value: Value) -> Result<(), AllocError>
        ensures { OnOk result (values_of self.new.entries.items ≡ with_value (values_of self.old.entries.items) name.now (Some (seen_value value))) }
    {
        let name = name.to_vec(alloc)?;
        let value = Some(value);
        self.entries.insert(0, Named { name, value })?;
        Ok(())
    }

    /// Gives a name a matrix.
    pub fn put_matrix(&mut self, alloc: Global, name: &[u8], m: Mat) -> Result<(), AllocError>
        ensures { OnOk result (values_of self.new.entries.items ≡ with_value (values_of self.old.entries.items) name.now (Some (model.whole m))) }
    {
        self.put(alloc, name, Value::Whole(m))
    }
}
