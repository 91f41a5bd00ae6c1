// What is true of any chip that is written by these rules.
ghost use Rattle.planner.specs.Batches.{BatchKeeps};
ghost use Rattle.planner.specs.Mounts.{MountKeeps, MountPast};

/// A batch into the room made for it, whole or cut by power, leaves sound tables and a free block.
pub fn batch_keeps()
    ensures { BatchKeeps }
{}

/// Mounting again finds sound tables, and each block free that was free.
pub fn mount_keeps()
    ensures { MountKeeps }
{}

/// Mounting past a scratch head finds sound tables, and that head free.
pub fn mount_past()
    ensures { MountPast }
{}
