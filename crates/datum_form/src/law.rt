ghost use Rattle.std.specs.Prelude.{◌≡◌, ℕ, List, ◌++◌};
ghost use Rattle.datum_form.specs.declared.datums.Node.{Node};
ghost use Rattle.datum_form.specs.Data.{Datum, Items};
ghost use Rattle.datum_form.specs.Stands.{Stands, StandAll};

/// The law that a node stands for one datum at most, and numbers of nodes for one list of data.
pub fn one_datum()
    ensures node { (nodes : List Node) (id : ℕ) (d e : Datum) → Stands nodes id d → Stands nodes id e → d ≡ e }
    ensures all { (nodes : List Node) (ids : List ℕ) (d e : Items) → StandAll nodes ids d → StandAll nodes ids e → d ≡ e }
{}

/// The law that nodes stand for the same data when others are added.
pub fn data_stay()
    ensures node { (nodes more : List Node) (id : ℕ) (d : Datum) → Stands nodes id d → Stands (nodes ++ more) id d }
    ensures all { (nodes more : List Node) (ids : List ℕ) (d : Items) → StandAll nodes ids d → StandAll (nodes ++ more) ids d }
{}
