ghost use Rattle.std.specs.Prelude.{length};
ghost use Rattle.sp_spec_nodes.specs.Preorder.{AreTrees, AreTrees-prop};

/// What a step of a proof says.
#[derive(Clone, Copy)]
pub enum Method<'a> {
    /// a word
    Word(&'a str),
    /// the text between the brackets of `solve( )`
    Goal(&'a [u8]),
}

/// A step of a proof.
#[derive(Drop)]
pub struct WrittenStep<'a> {
    /// what it says
    pub method: Method<'a>,
    /// the names of its cases, in their order; empty where an only case has none
    pub cases: Vec<&'a str>,
}

/// A proof as it is written.
#[derive(Drop)]
pub struct WrittenProof<'a> {
    /// its steps, each before those of its cases, the first case first
    pub steps: Vec<WrittenStep<'a>>,
    pub ghost is_one: { AreTrees (λ s. length s.cases.items) 1 steps.items } by { AreTrees-prop (λ s. length s.cases.items) 1 steps.items },
}
