//! Checkpoints: what a node remembers when its machine is lost.
//!
//! The bytes are an object of JSON behind its digest, as rp_seal has them, and nothing follows. A checkpoint is written in
//! version 2, and versions 1 and 2 are read. The fields and their forms are said in `specs/Checkpoints`, the object's text in
//! `specs/ObjectTexts`.
//!
//! What is read is whatever has the form: whether a node can go on from it is for the node to say.
#![tactic(auto)]

mod node_data;
mod restart_fault;
mod restore;
mod write_checkpoint;

pub use node_data::{
    CheckpointFault, Columns, HeldRow, HeldRows, NodeData, PartitionData, Partitions, ascend,
};
pub use restart_fault::RestartFault;
pub use restore::read_checkpoint;
pub use write_checkpoint::checkpoint_of;
