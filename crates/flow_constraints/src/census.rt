//! How many rows and atoms a program has, counted before one is numbered.

ghost use Rattle.std.specs.Prelude.{◌≡◌, map, if◌then◌else◌};
ghost use Rattle.named_form.specs.Code.{sites_of as sites_in};
ghost use Rattle.named_form.specs.Written.{act_of, code, form, procedure};
ghost use Rattle.flow_constraints.specs.Census.{counted_arms, counted_body, counted_code, counted_lambda, counted_lits, counted_main, counted_object, counted_procs, counted_rest, counted_step, cut, more};
ghost use Rattle.flow_constraints.specs.Limits.{atom_count, row_count};
ghost use Rattle.flow_constraints.specs.Quoted.{shape_of};

use crate::counts::sites_of;
use crate::layout::{FIXED, Shape, coming_past, own_rows, shape_at};
use named_form::{Act, Block, Named, Proc};
use scheme_base::Lit;

/// How many rows and atoms have been counted, or 2^64 - 1 where there are more.
#[derive(Clone, Copy, Debug)]
pub(crate) struct Census {
    pub(crate) rows: u64,
    pub(crate) atoms: u64,
}

/// One where something is there.
fn one_if(there: bool) -> u64
    ensures { result ≡ (if there then 1 else 0) }
{
    if there { 1 } else { 0 }
}

impl Census {
    /// So many more.
    fn more(self, rows: u64, atoms: u64) -> Census
        ensures { result ≡ more rows atoms self }
    {
        Census {
            rows: self.rows.saturating_add(rows),
            atoms: self.atoms.saturating_add(atoms),
        }
    }

    /// Counts a step, its arms aside.
    fn step(self, vars: &[u32], act: &Act) -> Census
        ensures { result ≡ counted_step vars.now (act_of act.now) self }
    {
        self.more(vars.len() as u64, 0)
            .more(u64::from(own_rows(act)), u64::from(sites_of(act)))
    }

    /// Counts a rest parameter and its lists.
    fn rest(self, rest: Option<u32>) -> Census
        ensures { result ≡ counted_rest rest self }
    {
        match rest {
            None => self,
            Some(_) => self.more(3, 1),
        }
    }

    /// Counts what a procedure binds.
    fn body(self, proc: &Proc) -> Census
        ensures { result ≡ counted_body (procedure proc.now) self }
    {
        let params = self.more(proc.params.len() as u64, 0);
        count_block(params.rest(proc.rest), &proc.body)
    }

    /// Counts the program's own procedure.
    fn main(self, proc: &Proc) -> Census
        ensures { result ≡ counted_main (procedure proc.now) self }
    {
        self.more(1, 0).body(proc)
    }

    /// Counts a procedure from 1 on.
    fn lambda(self, proc: &Proc) -> Census
        ensures { result ≡ counted_lambda (procedure proc.now) self }
    {
        self.more(2, 1).body(proc)
    }

    /// Counts all procedures.
    fn procs(self, procs: &[Proc]) -> Census
        ensures { result ≡ counted_procs (map procedure procs.now) self }
    {
        let Some((main, lambdas)) = procs.split_first() else {
            return self;
        };
        let mut census = self.main(main);
        for proc in lambdas {
            census = census.lambda(proc);
        }
        census
    }

    /// Counts a quoted object of this shape.
    fn object(self, shape: Shape) -> Census
        ensures { result ≡ counted_object shape self }
    {
        let pairs = one_if(shape.pairs);
        let vectors = one_if(shape.vectors);
        self.more(2 * pairs, pairs)
            .more(vectors, vectors)
            .more(0, one_if(shape.texts))
    }

    /// Counts literals.
    fn lits(self, lits: &[Lit]) -> Census
        ensures { result ≡ counted_lits lits.now 0 self }
    {
        let mut census = self;
        let mut coming: u64 = 0;
        let mut left = lits;
        while let Some((lit, others)) = left.split_first() {
            if coming == 0 {
                census = census.object(shape_at(left));
                coming = 1;
            }
            coming = coming_past(coming, lit);
            left = others;
        }
        census
    }

    /// How many rows and atoms a program has.
    pub(crate) fn of(named: &Named) -> Census
        ensures rows { result.rows ≡ cut (row_count (form named.now)) }
        ensures atoms { result.atoms ≡ cut (atom_count (form named.now)) }
    {
        let fixed = Census {
            rows: u64::from(named.tops),
            atoms: u64::from(FIXED),
        };
        fixed
            .procs(named.procs.as_slice())
            .lits(named.lits.as_slice())
    }
}

/// Counts the steps of a block.
#[cycle(census)]
fn count_block(census: Census, block: &Block) -> Census
    ensures { result ≡ counted_code (code block.now) census }
{
    let mut census = census;
    for step in block.steps.as_slice() {
        census = count_arms(census.step(step.vars.as_slice(), &step.act), &step.act);
    }
    census
}

/// Counts the steps of a step's arms.
#[cycle(census)]
fn count_arms(census: Census, act: &Act) -> Census
    ensures { result ≡ counted_arms (act_of act.now) census }
{
    match act {
        Act::If { yes, no, .. } => count_block(count_block(census, yes), no),
        _ => census,
    }
}
