ghost use Rattle.std.specs.Prelude.{◌≡◌, ◌∷◌, ◌+◌, ◌-◌, ◌<◌, ◌≤◌, [], reverse, get_or, OnErr, OnOk, length, drop};

use lv_formula::Memory;
use std::alloc::Global;
use std::marker::Model;

/// The values of a formula's free variables, with room for those of its bound variables.
#[derive(Debug, Drop)]
pub struct Env {
    values: Vec<u32>,
}

impl Model for Env {
    ghost use Rattle.std.specs.Prelude.{◌-◌, reverse};
    ghost use Rattle.std.specs.Vec.{vec_len, vec_capacity};
    ghost use Rattle.lv_eval.specs.Env.{Values};

    ghost Value = { Values };

    ghost view = { λ e. record { values = reverse e.values.items; room = vec_capacity e.values - vec_len e.values } };
}

impl Env {
    /// No values. Takes no memory.
    pub fn new(alloc: Global) -> Env
        ensures { result.values ≡ [] }
    {
        Env {
            values: Vec::new(alloc),
        }
    }

    /// Takes these values, the innermost variable's last, in place of the ones that are there, and makes
    /// room for so many more. The error is want of memory, and leaves the values as they were.
    pub fn load(&mut self, values: &[u32], room: u32) -> Result<(), Memory>
        ensures values { OnOk result (self.new.values ≡ reverse values.now) }
        ensures room { OnOk result (room ≤ self.new.room) }
        ensures unchanged { OnErr result (self.new ≡ self.old) }
    {
        let needed = values.len() + room as usize;
        self.values
            .reserve(needed.saturating_sub(self.values.len()))?;
        self.values.clear();
        self.values.extend_from_slice(values)?;
        Ok(())
    }

    /// Takes these values, the innermost variable's last, in place of the ones that are there. Takes no
    /// memory: there are as many places as before, values and room together.
    pub fn put(&mut self, values: &[u32])
        requires { length values.now ≤ length self.old.values + self.old.room }
        ensures values { self.new.values ≡ reverse values.now }
        ensures places { length self.new.values + self.new.room ≡ length self.old.values + self.old.room }
    {
        self.values.truncate(0);
        for value in values {
            self.values.push_reserved(*value);
        }
    }

    /// The value of the variable, 0 if it has none.
    pub(crate) fn value(&self, i: u32) -> u32
        ensures { result ≡ get_or self.now.values i 0 }
    {
        let i = i as usize;
        let len = self.values.len();
        if i < len { self.values[len - 1 - i] } else { 0 }
    }

    /// Makes the value that of a new innermost variable. Takes no memory.
    pub(crate) fn push(&mut self, value: u32)
        requires { 0 < self.old.room }
        ensures { self.new ≡ record { values = value ∷ self.old.values; room = self.old.room - 1 } }
    {
        self.values.push_reserved(value);
    }

    /// Takes away the innermost variable.
    pub(crate) fn pop(&mut self)
        requires { 0 < length self.old.values }
        ensures { self.new ≡ record { values = drop 1 self.old.values; room = self.old.room + 1 } }
    {
        let _ = self.values.pop();
    }
}
