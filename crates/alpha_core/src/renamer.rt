ghost use Rattle.std.specs.Prelude.{◌≡◌, ◌<◌, ◌^◌, ◌∷◌, [], ◌++◌, length, IfOk, OnOk};
ghost use Rattle.core_form.specs.declared.program.Var.{Var};
ghost use Rattle.core_form.specs.Source.{Scope as Seen};
ghost use Rattle.core_form.specs.Trees.{Tree, Trees, Ref, Lambda, If, Set, Call, Prim, Seq, Fix, Define, Stands, StandAll};
ghost use Rattle.alpha_core.specs.Renaming.{refer};
ghost use Rattle.alpha_core.specs.ScopesHeld.{Shows};
ghost use Rattle.alpha_core.specs.RenamingSteps.{Adds, Makes, MakesAll};

use crate::copy::copy_var;
use crate::scope::Scope;
use core_form::{Core, RenExpr, RenExprs, Var, VarRef, Vars, What};
use scheme_base::{Ids, Op, Pos};
use std::alloc::{AllocError, Global};

/// The renaming of a core under way.
#[derive(Drop)]
pub(crate) struct Renamer<'a> {
    pub(crate) alloc: Global,
    pub(crate) scope: Scope<'a>,
    /// The renamed expressions so far.
    pub(crate) exprs: RenExprs,
    /// The number of the next local variable.
    pub(crate) next: u32,
}

impl<'a> Renamer<'a> {
    pub(crate) fn new(alloc: Global) -> Renamer<'a>
        ensures scope { Shows result.scope [] }
        ensures exprs { result.exprs ≡ [] }
        ensures next { result.next ≡ 0 }
    {
        Renamer {
            alloc,
            scope: Scope::new(alloc),
            exprs: RenExprs::new(alloc),
            next: 0,
        }
    }

    /// How many local variables have a number: so many that a number has 32 bits.
    pub(crate) fn count(&self) -> u32
        ensures number { result ≡ self.now.next }
        ensures few { self.now.next < 2 ^ 32 }
    {
        self.next
    }

    /// Puts a renamed expression at the end, and answers its number.
    fn add(&mut self, what: What<VarRef>, pos: Pos) -> Result<u32, AllocError>
        ensures { IfOk result (λ id. Adds self.old self.new what pos id) }
    {
        let Ok(id) = u32::try_from(self.exprs.len()) else {
            return Err(AllocError);
        };
        self.exprs.push(RenExpr { what, pos })?;
        Ok(id)
    }

    /// A variable by its number, or by its name where it is a top-level one.
    fn refer(&self, var: &'a Var) -> Result<VarRef, AllocError>
        ensures { IfOk result (λ var'. (ρ : Seen Var) → Shows self.now.scope ρ → var' ≡ refer ρ var.now) }
    {
        match self.scope.find(var) {
            Some(number) => Ok(VarRef::Local(number)),
            None => Ok(VarRef::Top(copy_var(self.alloc, var)?)),
        }
    }

    /// Renames an expression whose depth is at most `deep`, and answers the number of what it becomes.
    #[cycle(rename)]
    fn rename_expr(&mut self, core: &'a Core, expr: u32, deep: u32) -> Result<u32, AllocError>
        ensures { IfOk result (λ id. (e : Tree Var) → Stands core.now.exprs expr e → Makes self.old self.new e id) }
    {
        if deep == 0 {
            return Err(AllocError);
        }
        let deep = deep - 1;
        let Some(node) = core.exprs.get(expr as usize) else {
            return Err(AllocError);
        };
        let pos = node.pos;
        match &node.what {
            What::Const(lit) => self.add(What::Const(*lit), pos),
            What::Ref(var) => self.rename_ref(var, pos),
            What::Lambda { params, rest, body } => {
                self.rename_lambda(core, params, rest, *body, pos, deep)
            }
            What::If { test, yes, no } => self.rename_if(core, *test, *yes, *no, pos, deep),
            What::Set { var, value } => self.rename_set(core, var, *value, pos, deep),
            What::Call { operator, operands } => {
                self.rename_call(core, *operator, operands, pos, deep)
            }
            What::Prim { op, operands } => self.rename_prim(core, *op, operands, pos, deep),
            What::Seq { items } => self.rename_seq(core, items, pos, deep),
            What::Fix {
                vars,
                lambdas,
                body,
            } => self.rename_fix(core, vars, lambdas, *body, pos, deep),
            What::Define { var, value } => self.rename_define(core, var, *value, pos, deep),
        }
    }

    fn rename_ref(&mut self, var: &'a Var, pos: Pos) -> Result<u32, AllocError>
        ensures { IfOk result (λ id. Makes self.old self.new (Ref pos var.now) id) }
    {
        let var = self.refer(var)?;
        self.add(What::Ref(var), pos)
    }

    #[cycle(rename)]
    fn rename_lambda(
        &mut self,
        core: &'a Core,
        params: &'a Vars,
        rest: &'a Option<Var>,
        body: u32,
        pos: Pos,
        deep: u32,
    ) -> Result<u32, AllocError>
        ensures { IfOk result (λ id. (e : Tree Var) → Stands core.now.exprs body e → Makes self.old self.new (Lambda pos params.now rest.now e) id) }
    {
        let outside = self.scope.len();
        let params = self.bind_all(params)?;
        let rest = self.bind_rest(rest)?;
        let body = self.rename_expr(core, body, deep)?;
        self.scope.leave(outside)?;
        self.add(What::Lambda { params, rest, body }, pos)
    }

    #[cycle(rename)]
    fn rename_if(
        &mut self,
        core: &'a Core,
        test: u32,
        yes: u32,
        no: u32,
        pos: Pos,
        deep: u32,
    ) -> Result<u32, AllocError>
        ensures { IfOk result (λ id. (a b c : Tree Var) → Stands core.now.exprs test a → Stands core.now.exprs yes b → Stands core.now.exprs no c → Makes self.old self.new (If pos a b c) id) }
    {
        let test = self.rename_expr(core, test, deep)?;
        let yes = self.rename_expr(core, yes, deep)?;
        let no = self.rename_expr(core, no, deep)?;
        self.add(What::If { test, yes, no }, pos)
    }

    #[cycle(rename)]
    fn rename_set(
        &mut self,
        core: &'a Core,
        var: &'a Var,
        value: u32,
        pos: Pos,
        deep: u32,
    ) -> Result<u32, AllocError>
        ensures { IfOk result (λ id. (e : Tree Var) → Stands core.now.exprs value e → Makes self.old self.new (Set pos var.now e) id) }
    {
        let var = self.refer(var)?;
        let value = self.rename_expr(core, value, deep)?;
        self.add(What::Set { var, value }, pos)
    }

    #[cycle(rename)]
    fn rename_call(
        &mut self,
        core: &'a Core,
        operator: u32,
        operands: &'a Ids,
        pos: Pos,
        deep: u32,
    ) -> Result<u32, AllocError>
        ensures { IfOk result (λ id. (f : Tree Var) (es : Trees Var) → Stands core.now.exprs operator f → StandAll core.now.exprs operands.now es → Makes self.old self.new (Call pos f es) id) }
    {
        let operator = self.rename_expr(core, operator, deep)?;
        let operands = self.rename_list(core, operands, deep)?;
        self.add(What::Call { operator, operands }, pos)
    }

    #[cycle(rename)]
    fn rename_prim(
        &mut self,
        core: &'a Core,
        op: Op,
        operands: &'a Ids,
        pos: Pos,
        deep: u32,
    ) -> Result<u32, AllocError>
        ensures { IfOk result (λ id. (es : Trees Var) → StandAll core.now.exprs operands.now es → Makes self.old self.new (Prim pos op es) id) }
    {
        let operands = self.rename_list(core, operands, deep)?;
        self.add(What::Prim { op, operands }, pos)
    }

    #[cycle(rename)]
    fn rename_seq(
        &mut self,
        core: &'a Core,
        items: &'a Ids,
        pos: Pos,
        deep: u32,
    ) -> Result<u32, AllocError>
        ensures { IfOk result (λ id. (es : Trees Var) → StandAll core.now.exprs items.now es → Makes self.old self.new (Seq pos es) id) }
    {
        let items = self.rename_list(core, items, deep)?;
        self.add(What::Seq { items }, pos)
    }

    #[cycle(rename)]
    fn rename_fix(
        &mut self,
        core: &'a Core,
        vars: &'a Vars,
        lambdas: &'a Ids,
        body: u32,
        pos: Pos,
        deep: u32,
    ) -> Result<u32, AllocError>
        ensures { IfOk result (λ id. (ls : Trees Var) (e : Tree Var) → StandAll core.now.exprs lambdas.now ls → Stands core.now.exprs body e → Makes self.old self.new (Fix pos vars.now ls e) id) }
    {
        let outside = self.scope.len();
        let vars = self.bind_all(vars)?;
        let lambdas = self.rename_list(core, lambdas, deep)?;
        let body = self.rename_expr(core, body, deep)?;
        self.scope.leave(outside)?;
        self.add(
            What::Fix {
                vars,
                lambdas,
                body,
            },
            pos,
        )
    }

    #[cycle(rename)]
    fn rename_define(
        &mut self,
        core: &'a Core,
        var: &'a Var,
        value: u32,
        pos: Pos,
        deep: u32,
    ) -> Result<u32, AllocError>
        ensures { IfOk result (λ id. (e : Tree Var) → Stands core.now.exprs value e → Makes self.old self.new (Define pos var.now e) id) }
    {
        let var = VarRef::Top(copy_var(self.alloc, var)?);
        let value = self.rename_expr(core, value, deep)?;
        self.add(What::Define { var, value }, pos)
    }

    /// Renames expressions in their order, each at most `deep` deep.
    #[cycle(rename)]
    pub(crate) fn rename_list(
        &mut self,
        core: &'a Core,
        exprs: &'a Ids,
        deep: u32,
    ) -> Result<Ids, AllocError>
        ensures { IfOk result (λ ids. (es : Trees Var) → StandAll core.now.exprs exprs.now es → MakesAll self.old self.new es ids) }
    {
        let mut renamed = Ids::new(self.alloc);
        let mut left = exprs.as_slice();
        while let Some((expr, others)) = left.split_first() {
            renamed.push(self.rename_expr(core, *expr, deep)?)?;
            left = others;
        }
        Ok(renamed)
    }
}
