ghost use Rattle.std.specs.Prelude.{◌≡◌, [], IfOk};
ghost use Rattle.core_form.specs.declared.program.VarRef.{VarRef as Name};
ghost use Rattle.core_form.specs.Trees.{Tree, If, Stands};
ghost use Rattle.named_form.specs.Written.{act_of};
ghost use Rattle.box_name.specs.Naming.{operation as operation_act};
ghost use Rattle.box_name.specs.NamingSteps.{Does, DoesArm, DoesLast, DoesNode, DoesNodes, IsLambdaAt, last_of as last_value};
ghost use Rattle.box_name.specs.Told.{Define as DefineAs, assignment, reference, told, top_name};

use crate::facts::Stand;
use core_form::{VarRef, What};
use indexmap::IndexMap;
use named_form::{Act, Block, Step};
use scheme_base::{Ids, Op, Pos};
use sqlite_items::Items;
use std::alloc::{AllocError, Global};

/// The naming of a renamed core under way.
#[derive(Drop)]
pub(crate) struct Namer {
    pub(crate) alloc: Global,
    /// The variables of the local variables that are bound so far, or their boxes.
    pub(crate) vars: IndexMap<u32, u32>,
    /// The number of the next variable.
    pub(crate) next_var: u32,
    /// The number of the next procedure.
    pub(crate) next_proc: u32,
}

impl Namer {
    pub(crate) fn new(alloc: Global) -> Namer
        ensures entries { result.vars.entries ≡ [] }
        ensures next_var { result.next_var ≡ 0 }
        ensures next_proc { result.next_proc ≡ 1 }
    {
        Namer {
            alloc,
            vars: IndexMap::new(alloc),
            next_var: 0,
            next_proc: 1,
        }
    }

    /// Makes the steps of an expression whose depth is at most `deep`, and answers the variable of its value.
    #[cycle(name)]
    pub(crate) fn name_expr<'a, 'f>(
        &mut self,
        stand: Stand<'a, 'f>,
        expr: u32,
        deep: u32,
        steps: &mut Vec<Step>,
    ) -> Result<u32, AllocError>
        ensures { IfOk result (λ v. DoesNode stand.entry self.old self.new steps.old.items steps.new.items expr v) }
    {
        if deep == 0 {
            return Err(AllocError);
        }
        let deep = deep - 1;
        let Some(node) = stand.core.exprs.get(expr as usize) else {
            return Err(AllocError);
        };
        let pos = node.pos;
        match &node.what {
            What::Const(lit) => self.bind(Act::Const { lit: *lit }, pos, steps),
            What::Ref(var) => self.name_ref(stand, var, pos, steps),
            What::Lambda { .. } => self.name_lambda(stand, expr, pos, steps),
            What::If { test, yes, no } => self.name_if(stand, *test, *yes, *no, pos, deep, steps),
            What::Set { var, value } => {
                let from = self.name_expr(stand, *value, deep, steps)?;
                self.name_set(stand, var, from, pos, steps)
            }
            What::Call { operator, operands } => {
                self.name_call(stand, *operator, operands, pos, deep, steps)
            }
            What::Prim { op, operands } => {
                let operands = self.name_list(stand, operands, deep, steps)?;
                self.bind(operation(*op, operands), pos, steps)
            }
            What::Seq { items } => {
                let values = self.name_list(stand, items, deep, steps)?;
                Ok(last_of(&values))
            }
            What::Fix {
                vars,
                lambdas,
                body,
            } => {
                self.name_fix(stand, vars, lambdas, pos, steps)?;
                self.name_expr(stand, *body, deep, steps)
            }
            What::Define { var, value } => {
                let from = self.name_expr(stand, *value, deep, steps)?;
                self.name_define(stand, var, from, pos, steps)
            }
        }
    }

    fn name_ref<'a, 'f>(
        &mut self,
        stand: Stand<'a, 'f>,
        var: &'a VarRef,
        pos: Pos,
        steps: &mut Vec<Step>,
    ) -> Result<u32, AllocError>
        ensures { IfOk result (λ v. Does stand.entry self.old self.new steps.old.items steps.new.items (reference pos var.now) v) }
    {
        match var {
            VarRef::Local(number) => {
                let local = self.local(*number)?;
                if stand.is_boxed(*number) {
                    let checked = stand.is_hole(*number);
                    self.bind(
                        Act::Unbox {
                            boxed: local,
                            checked,
                        },
                        pos,
                        steps,
                    )
                } else {
                    Ok(local)
                }
            }
            VarRef::Top(var) => {
                let top = stand.top(var)?;
                let checked = stand.is_checked(var);
                self.bind(Act::TopGet { top, checked }, pos, steps)
            }
        }
    }

    fn name_lambda<'a, 'f>(
        &mut self,
        stand: Stand<'a, 'f>,
        expr: u32,
        pos: Pos,
        steps: &mut Vec<Step>,
    ) -> Result<u32, AllocError>
        ensures { IfOk result (λ v. (e : Tree Name) → Stands stand.entry.core.now.exprs expr e → IsLambdaAt pos e → Does stand.entry self.old self.new steps.old.items steps.new.items (told stand.entry.core.now.lits e) v) }
    {
        let proc = self.procedure(stand, expr)?;
        self.bind(Act::Closure { proc }, pos, steps)
    }

    #[cycle(name)]
    fn name_if<'a, 'f>(
        &mut self,
        stand: Stand<'a, 'f>,
        test: u32,
        yes: u32,
        no: u32,
        pos: Pos,
        deep: u32,
        steps: &mut Vec<Step>,
    ) -> Result<u32, AllocError>
        ensures { IfOk result (λ v. (a b c : Tree Name) → Stands stand.entry.core.now.exprs test a → Stands stand.entry.core.now.exprs yes b → Stands stand.entry.core.now.exprs no c → Does stand.entry self.old self.new steps.old.items steps.new.items (told stand.entry.core.now.lits (If pos a b c)) v) }
    {
        let test = self.name_expr(stand, test, deep, steps)?;
        let var = self.fresh()?;
        let yes = self.name_arm(stand, yes, deep)?;
        let no = self.name_arm(stand, no, deep)?;
        self.put(var, Act::If { test, yes, no }, pos, steps)
    }

    /// Makes the block of an arm.
    #[cycle(name)]
    fn name_arm<'a, 'f>(
        &mut self,
        stand: Stand<'a, 'f>,
        expr: u32,
        deep: u32,
    ) -> Result<Block, AllocError>
        ensures { IfOk result (λ block. DoesArm stand.entry self.old self.new expr block) }
    {
        let mut steps = Vec::new(self.alloc);
        let value = self.name_expr(stand, expr, deep, &mut steps)?;
        Ok(Block {
            steps: Items::from_vec(steps),
            value: Some(value),
        })
    }

    /// Puts the step of an assignment of the value in `from`.
    fn name_set<'a, 'f>(
        &mut self,
        stand: Stand<'a, 'f>,
        var: &'a VarRef,
        from: u32,
        pos: Pos,
        steps: &mut Vec<Step>,
    ) -> Result<u32, AllocError>
        ensures { IfOk result (λ v. DoesLast stand.entry self.old self.new steps.old.items steps.new.items from (assignment pos var.now) v) }
    {
        match var {
            VarRef::Local(number) => {
                let boxed = self.local(*number)?;
                self.bind(Act::SetBox { boxed, from }, pos, steps)
            }
            VarRef::Top(var) => {
                let top = stand.top(var)?;
                let checked = stand.is_checked(var);
                self.bind(Act::TopSet { top, from, checked }, pos, steps)
            }
        }
    }

    /// Puts the step of a definition as the value in `from`.
    fn name_define<'a, 'f>(
        &mut self,
        stand: Stand<'a, 'f>,
        var: &'a VarRef,
        from: u32,
        pos: Pos,
        steps: &mut Vec<Step>,
    ) -> Result<u32, AllocError>
        ensures { IfOk result (λ v. DoesLast stand.entry self.old self.new steps.old.items steps.new.items from (DefineAs pos (top_name var.now)) v) }
    {
        match var {
            VarRef::Local(_) => Err(AllocError),
            VarRef::Top(var) => {
                let top = stand.top(var)?;
                self.bind(Act::TopDefine { top, from }, pos, steps)
            }
        }
    }

    /// Makes the steps of operands in their order, and answers the variables of their values.
    #[cycle(name)]
    pub(crate) fn name_list<'a, 'f>(
        &mut self,
        stand: Stand<'a, 'f>,
        exprs: &'a Ids,
        deep: u32,
        steps: &mut Vec<Step>,
    ) -> Result<Ids, AllocError>
        ensures { IfOk result (λ vs. DoesNodes stand.entry self.old self.new steps.old.items steps.new.items exprs.now vs) }
    {
        let mut values = Ids::new(self.alloc);
        let mut left = exprs.as_slice();
        while let Some((expr, others)) = left.split_first() {
            values.push(self.name_expr(stand, *expr, deep, steps)?)?;
            left = others;
        }
        Ok(values)
    }
}

/// What the step of an operation does with its operands.
fn operation(op: Op, operands: Ids) -> Act
    ensures { act_of result ≡ operation_act op operands }
{
    match (op, operands.as_slice()) {
        (Op::Apply, [operator, list]) => Act::Apply {
            operator: *operator,
            list: *list,
        },
        (Op::CallCC, [operator]) => Act::CallCC {
            operator: *operator,
        },
        _ => Act::Prim { op, operands },
    }
}

/// The last of some values. A sequence has an item.
fn last_of(values: &Ids) -> u32
    ensures { result ≡ last_value 0 values.now }
{
    match values.as_slice().split_last() {
        Some((last, _)) => *last,
        None => 0,
    }
}
