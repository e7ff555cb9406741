ghost use Rattle.std.specs.Prelude.{◌≡◌};
ghost use Rattle.executors.specs.IndexTasks.{new_index};

use meta_state::IndexMetadata;
use plain_data::NameSet;

/// An index as its creation leaves it, but for its aliases: open, with one shard and one replica.
pub fn open_index(id: u64, aliases: NameSet) -> IndexMetadata
    ensures { result ≡ record (new_index id 1 1) { aliases = aliases } }
{
    IndexMetadata {
        id,
        version: 1,
        settings_version: 1,
        aliases_version: 1,
        opened: true,
        shards: 1,
        replicas: 1,
        aliases,
    }
}
