ghost use Rattle.std.specs.Prelude.{◌≡◌};
ghost use Rattle.st_tree.specs.Typing.Programs.{WellTyped};

use crate::program::Tree;
use std::marker::Model;
use tri_base::Point;

/// A well-typed program: its tree, and the points that it was checked against, in their order.
#[derive(Drop)]
pub struct Typed {
    tree: Tree,
    points: Vec<Point>,
}

impl Model for Typed {
    ghost use Rattle.st_tree.specs.Typing.TypedPrograms.{TypedProgram};

    ghost Value = { TypedProgram };

    ghost use Rattle.std.specs.Coded.{codes};
    ghost use Rattle.st_tree.specs.contracts.statement.Statement as statement;
    ghost use Rattle.st_tree.specs.contracts.expression.Expr as expression;

    ghost coded = { Prim.hlevel (codes, statement.the_row.coded, expression.the_row.coded) };

    ghost use Rattle.st_tree.specs.Typing.Programs.{WellTyped};

    ghost view = { λ t. record { tree = t.tree; points = t.points.items } };

    ghost invariant = { λ t. WellTyped t.points.items t.tree };
}

impl Typed {
    /// This tree with these points, over which it is well typed. It takes no memory.
    pub fn of(tree: Tree, points: Vec<Point>) -> Typed
        requires { WellTyped points.items tree }
        ensures { result ≡ record { tree = tree; points = points.items } }
    {
        Typed { tree, points }
    }

    /// Lends the tree.
    pub fn tree(&self) -> &Tree
        ensures value { result.now ≡ self.now.tree }
        ensures well_typed { WellTyped self.now.points self.now.tree }
    {
        &self.tree
    }

    /// Lends the points.
    pub fn points(&self) -> &[Point]
        ensures { result.now ≡ self.now.points }
    {
        &self.points
    }
}
