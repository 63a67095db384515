ghost use Rattle.std.specs.Prelude.{ℤ, List};
ghost use Rattle.graph_types.specs.declared.graph.Graph.{Graph};

/// What a step wants: a graph, and what each of its slots has to hold.
pub trait Wants {
    /// What slots hold.
    type Value;

    ghost graph: { Self → Graph };

    /// One list of whole numbers for each slot.
    ghost content: { Self → List (List ℤ) };

    /// The value has this content.
    ghost fits: { List ℤ → Self.Value → Type 0 };
}
