use fly_docs::AttemptName;
use fly_policy::Outcome;
use fly_types::{List, LiteralMap, Text};

/// What the attempts of one execution came to, as far as it is recorded. No name stands twice.
#[derive(Debug, PartialEq, Eq, Drop)]
pub struct Results {
    pub list: List<(AttemptName, Outcome)>,
}

/// What the catalog answered for nodes of one execution, each by its path: the outputs that it had, or none for a miss.
/// No path stands twice.
#[derive(Debug, PartialEq, Eq, Drop)]
pub struct Hits {
    pub list: List<(List<Text>, Option<LiteralMap>)>,
}
