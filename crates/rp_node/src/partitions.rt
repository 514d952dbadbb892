//! The partitions of a node.
use indexmap::IndexMap;
use rp_partition::Partition;
use rp_value::Value;
use std::collections::hash_map::RandomState;

/// The partitions of a node by their keys, in the order in which they came. The hasher's seed is drawn at random, so that
/// whoever chooses keys can't choose ones that are all looked for in one place.
pub(crate) type Partitions = IndexMap<Vec<Value>, Partition, RandomState>;
