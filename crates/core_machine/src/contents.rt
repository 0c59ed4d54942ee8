//! What the table between a job's regions is made for.
use crate::job::Job;
use lido_base::Contents;

/// The keys are those of the attributes of split nodes, 256 for each split node, and at least one. The value of a key is that of
/// its attribute in the final state, and its owner the region that evaluates it; Void and 0 for a key without an attribute.
impl Contents for Job {
    ghost use Rattle.core_machine.specs.Keys.{contents_of, owners_of};

    ghost contents = { contents_of };

    ghost owners = { owners_of };

    fn keys(&self) -> u32 {
        self.facts();
        self.numbers();
        let count = self.split().nodes.len();
        if count == 0 { 1 } else { 256 * count as u32 }
    }
}
