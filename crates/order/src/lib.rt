// The public calls, each from a crate of its own. Each answers for every input, and none has a `requires`.
#![tactic(auto)]

pub use draw_call::draw;
pub use page_call::page;
pub use pair_call::pair;
pub use prefix_call::prefix;
pub use ready_call::ready;
pub use remainder_call::remainder;
pub use route_call::route;
pub use run_call::run;
pub use same_call::same;
