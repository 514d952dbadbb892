//! What a case plays.
use crate::fault::EventFault;
use crate::input_player::InputPlayer;
use crate::line::Line;
use crate::lines_player::LinesPlayer;
use crate::matcher_player::MatcherPlayer;
use crate::node_player::NodePlayer;
use rp_query::Query;
use std::alloc::{AllocError, Global};

/// What a case plays.
#[derive(Drop)]
pub enum Subject {
    /// Nothing was begun yet.
    Nothing,
    Node(Box<NodePlayer>),
    Matcher(Box<MatcherPlayer>),
    Lines(LinesPlayer),
    Input(Box<InputPlayer>),
}

impl Subject {
    /// A node of which nothing was taken.
    pub fn node(alloc: Global, query: Query) -> Result<Subject, AllocError> {
        let player = NodePlayer::new(alloc, query)?;
        Ok(Subject::Node(Box::new(alloc, player)?))
    }

    /// A matcher of no row yet.
    pub fn matcher(alloc: Global, query: Query) -> Result<Subject, AllocError> {
        let player = MatcherPlayer::new(alloc, query)?;
        Ok(Subject::Matcher(Box::new(alloc, player)?))
    }

    /// No columns yet.
    pub fn input(alloc: Global) -> Result<Subject, EventFault> {
        let player = InputPlayer::new(alloc)?;
        Ok(Subject::Input(Box::new(alloc, player)?))
    }

    /// Plays an event, and adds what is told of it.
    pub fn act(&mut self, line: Line, told: &mut String) -> Result<(), EventFault> {
        match self {
            Subject::Nothing => Err(EventFault::NoSubject),
            Subject::Node(player) => player.act(line, told),
            Subject::Matcher(player) => player.act(line, told),
            Subject::Lines(player) => player.act(line, told),
            Subject::Input(player) => player.act(line, told),
        }
    }

    /// Another clause is given in the midst of a case: a node's restarts are of this one.
    pub fn set_query(&mut self, query: Query) {
        if let Subject::Node(player) = self {
            player.set_query(query);
        }
    }
}
