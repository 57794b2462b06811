ghost use Rattle.std.specs.Prelude.{◌≡◌, ◌<◌, ◌==◌, [], ◌∷◌, ◌++◌, length, position, slice_get, OnOk, OnErr, Some, string_bytes};
ghost use Rattle.std.specs.Cmp.Lexicographic.{pointwise};

use crate::{Pattern, Var};
use std::alloc::{AllocError, Global};
use std::marker::Model;

/// A query. `names` are the names of its variables without the mark, in order of number; `columns` are the
/// variables that are answered.
#[derive(Debug, Drop)]
pub struct Query {
    pub names: Names,
    pub pattern: Pattern,
    pub columns: Columns,
    pub distinct: bool,
}

/// A list of names, each of them a text. It is seen as the list of their bytes.
#[derive(Debug, Drop)]
pub struct Names {
    alloc: Global,
    names: Vec<String>,
}

impl Model for Names {
    ghost use Rattle.std.specs.Prelude.{List, ℕ, map, string_bytes};

    ghost Value = { List (List ℕ) };

    ghost view = { λ l. map string_bytes l.names.items };
}

impl Names {
    /// The empty list.
    pub fn new(alloc: Global) -> Names
        ensures { result ≡ [] }
    {
        Names {
            alloc,
            names: Vec::new(alloc),
        }
    }

    /// How many names there are.
    pub fn len(&self) -> usize
        ensures { result ≡ length self.now }
    {
        self.names.len()
    }

    /// Whether there is no name.
    pub fn is_empty(&self) -> bool
        ensures { result ≡ (length self.now == 0) }
    {
        self.names.is_empty()
    }

    /// The i-th name from 0.
    pub fn get(&self, i: usize) -> &str
        requires { i < length self.now }
        ensures { slice_get self.now i ≡ Some result.now }
    {
        self.names[i].as_str()
    }

    /// The first place of the name that has these bytes, if it is there.
    pub fn position(&self, name: &[u8]) -> Option<usize>
        ensures { result ≡ position (λ met. pointwise ◌==◌ met name.now) self.now }
    {
        position_of(&self.names, name)
    }

    /// Puts a copy of a name at the end, or changes nothing.
    pub fn push(&mut self, name: &str) -> Result<(), AllocError>
        ensures ok { OnOk result (self.new ≡ self.old ++ name.now ∷ []) }
        ensures err { OnErr result (self.new ≡ self.old) }
    {
        self.names.push(String::from_str(self.alloc, name)?)?;
        Ok(())
    }
}

fn position_of(names: &[String], name: &[u8]) -> Option<usize>
    ensures { result ≡ position (λ met. pointwise ◌==◌ (string_bytes met) name.now) names.now }
{
    names.iter().position(|met| met.as_bytes() == name)
}

/// A list of variables.
#[derive(Debug, Drop)]
pub struct Columns {
    vars: Vec<Var>,
}

impl Model for Columns {
    ghost use Rattle.std.specs.Prelude.{List};
    ghost use Rattle.alg_model.specs.declared.var.Var.{Var};

    ghost Value = { List Var };

    ghost view = { λ l. l.vars.items };
}

impl Columns {
    /// The empty list.
    pub fn new(alloc: Global) -> Columns
        ensures { result ≡ [] }
    {
        Columns {
            vars: Vec::new(alloc),
        }
    }

    /// How many variables there are.
    pub fn len(&self) -> usize
        ensures { result ≡ length self.now }
    {
        self.vars.len()
    }

    /// Whether there is no variable.
    pub fn is_empty(&self) -> bool
        ensures { result ≡ (length self.now == 0) }
    {
        self.vars.is_empty()
    }

    /// The i-th variable from 0.
    pub fn get(&self, i: usize) -> Var
        requires { i < length self.now }
        ensures { slice_get self.now i ≡ Some result }
    {
        self.vars[i]
    }

    /// Puts a variable at the end, or changes nothing.
    pub fn push(&mut self, var: Var) -> Result<(), AllocError>
        ensures ok { OnOk result (self.new ≡ self.old ++ var ∷ []) }
        ensures err { OnErr result (self.new ≡ self.old) }
    {
        self.vars.push(var)?;
        Ok(())
    }
}
