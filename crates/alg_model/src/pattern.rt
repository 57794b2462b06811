ghost use Rattle.std.specs.Prelude.{◌≡◌, ◌<◌, ◌==◌, [], ◌∷◌, ◌++◌, All, length, slice_get, IfOk, OnOk, OnErr, Some};

use crate::Var;
use crate::var_set::{list_vars, place_vars};
use bm_term::Term;
use std::alloc::{AllocError, Global};
use std::marker::Model;

/// A place of a triple pattern: a variable, or a term that has to stand there.
#[derive(Debug, Drop)]
pub enum Place {
    /// A variable: any term may stand there, and the variable is bound to it.
    Var(Var),
    /// A term that has to stand there itself.
    Term(Term),
}

impl Place {
    ghost use Rattle.alg_model.specs.Pattern.{place_vars};
    ghost use Rattle.alg_model.specs.VarSet.{HoldsJust, PlaceFits, place_set};

    /// Its variable, if it is one, as a set in a word, for which it has to be below 64.
    pub fn vars(&self) -> u64
        requires { PlaceFits self.now }
        ensures value { result ≡ place_set self.now }
        ensures just { HoldsJust result (place_vars self.now) }
    {
        place_vars(self)
    }
}

/// A triple pattern (SPARQL 1.1 Query, section 18.1.5). `number` counts the patterns of a query from 1, in
/// the order of its text.
#[derive(Debug, Drop)]
pub struct TriplePat {
    pub subject: Place,
    pub predicate: Place,
    pub object: Place,
    pub number: u16,
}

impl TriplePat {
    ghost use Rattle.alg_model.specs.Pattern.{triple_vars};
    ghost use Rattle.alg_model.specs.VarSet.{HoldsJust, TripleFits, triple_set};

    /// The set of its variables as a word, for which they have to be below 64.
    pub fn vars(&self) -> u64
        requires { TripleFits self.now }
        ensures value { result ≡ triple_set self.now }
        ensures just { HoldsJust result (triple_vars self.now) }
    {
        self.subject.vars() | self.predicate.vars() | self.object.vars()
    }
}

/// A graph pattern (SPARQL 1.1 Query, section 18.2): a basic graph pattern, the Join of two patterns, or
/// the LeftJoin of a pattern and an optional part.
#[derive(Debug, Drop)]
pub enum Pattern {
    Bgp(PatList),
    Join(Box<Pattern>, Box<Pattern>),
    LeftJoin(Box<Pattern>, Box<Pattern>),
}

impl Pattern {
    ghost use Rattle.alg_model.specs.Pattern.{Join, LeftJoin, algebra_of};

    /// The Join of two patterns. `Err` only where memory runs out, and then both are lost.
    pub fn join(alloc: Global, left: Pattern, right: Pattern) -> Result<Pattern, AllocError>
        ensures { IfOk result (λ pattern. algebra_of pattern ≡ Join (algebra_of left) (algebra_of right)) }
    {
        let left = Box::new(alloc, left)?;
        let right = Box::new(alloc, right)?;
        Ok(Pattern::Join(left, right))
    }

    /// The LeftJoin of a pattern and an optional part. `Err` only where memory runs out, and then both are lost.
    pub fn left_join(alloc: Global, left: Pattern, right: Pattern) -> Result<Pattern, AllocError>
        ensures { IfOk result (λ pattern. algebra_of pattern ≡ LeftJoin (algebra_of left) (algebra_of right)) }
    {
        let left = Box::new(alloc, left)?;
        let right = Box::new(alloc, right)?;
        Ok(Pattern::LeftJoin(left, right))
    }
}

/// A list of triple patterns.
#[derive(Debug, Drop)]
pub struct PatList {
    patterns: Vec<TriplePat>,
}

impl Model for PatList {
    ghost use Rattle.std.specs.Prelude.{List};
    ghost use Rattle.alg_model.specs.declared.pattern.TriplePat.{TriplePat};

    ghost Value = { List TriplePat };

    ghost view = { λ l. l.patterns.items };
}

impl PatList {
    ghost use Rattle.alg_model.specs.Pattern.{Bgp, vars_of};
    ghost use Rattle.alg_model.specs.VarSet.{HoldsJust, TripleFits, list_set};

    /// The empty list.
    pub fn new(alloc: Global) -> PatList
        ensures { result ≡ [] }
    {
        PatList {
            patterns: Vec::new(alloc),
        }
    }

    /// How many patterns there are.
    pub fn len(&self) -> usize
        ensures { result ≡ length self.now }
    {
        self.patterns.len()
    }

    /// Whether there is no pattern.
    pub fn is_empty(&self) -> bool
        ensures { result ≡ (length self.now == 0) }
    {
        self.patterns.is_empty()
    }

    /// The i-th pattern from 0.
    pub fn get(&self, i: usize) -> &TriplePat
        requires { i < length self.now }
        ensures { slice_get self.now i ≡ Some result.now }
    {
        &self.patterns[i]
    }

    /// The patterns in their order.
    pub fn as_slice(&self) -> &[TriplePat]
        ensures { result.now ≡ self.now }
    {
        &self.patterns
    }

    /// The set of the variables of its patterns as a word, for which they have to be below 64.
    pub fn vars(&self) -> u64
        requires { All TripleFits self.now }
        ensures value { result ≡ list_set self.now }
        ensures just { HoldsJust result (vars_of (Bgp self.now)) }
    {
        list_vars(self.as_slice())
    }

    /// Puts a pattern at the end, or changes nothing.
    pub fn push(&mut self, pattern: TriplePat) -> Result<(), AllocError>
        ensures ok { OnOk result (self.new ≡ self.old ++ pattern ∷ []) }
        ensures err { OnErr result (self.new ≡ self.old) }
    {
        self.patterns.push(pattern)?;
        Ok(())
    }
}
