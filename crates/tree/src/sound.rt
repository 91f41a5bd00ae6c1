// What is wrong with a table.
ghost use Rattle.tree.specs.Sound.{Checks, Faults};
ghost use Rattle.tree.specs.Table.{nodes_of};
ghost use Rattle.tree.specs.Tree.{Among};

use crate::table::Tree;

/// Why the entries are no tree.
#[derive(Clone, Copy, PartialEq, Eq, Debug)]
pub enum TreeFault {
    /// An entry stands at no path of eight names or fewer.
    Unreached,
    /// Two entries of one directory have one name.
    Namesakes,
}

impl Tree {
    /// The first fault, where not every entry stands at a path, or a directory has two of one name.
    pub fn check(&self) -> Result<(), TreeFault>
        ensures { Checks (Among (nodes_of self.now)) result }
    {
        if !self.is_rooted() {
            return Err(TreeFault::Unreached);
        }
        if self.has_namesakes() {
            return Err(TreeFault::Namesakes);
        }
        Ok(())
    }

    /// The first fault; none where every entry stands at a path and no directory has two of one name.
    pub fn fault(&self) -> Option<TreeFault>
        ensures { Faults (Among (nodes_of self.now)) result }
    {
        self.check().err()
    }
}
