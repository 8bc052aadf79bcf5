//! The numbers of executions.
ghost use Rattle.std.specs.Prelude.{IfOk};
ghost use Rattle.fly_report.specs.LaunchCounts.{NumbersExecutions};

use fly_types::{NoMemory, Text};
use fly_world::World;
use std::alloc::Global;
use std::collections::BTreeMap;

/// The number of each execution, by its name. Of two of one name the first is found.
pub(crate) fn execution_numbers(
    alloc: Global,
    world: &World<'_>,
) -> Result<BTreeMap<Text, u32>, NoMemory>
    ensures { IfOk result (NumbersExecutions world.now.world) }
{
    let mut numbers = BTreeMap::new(alloc);
    for number in 0..world.executions() {
        let name = &world.named(number).name;
        if numbers.get(name).is_none() {
            numbers.insert(name.copy(alloc)?, number)?;
        }
    }
    Ok(numbers)
}
