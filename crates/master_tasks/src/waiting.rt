//! A request that waits, and the reply that it gets.
ghost use Rattle.std.specs.Prelude.{◌≡◌, IfOk, true};
ghost use Rattle.cluster_state.specs.declared.reply.Answer.{Answer as AnswerOf};
ghost use Rattle.master_tasks.specs.Replying.{answer_to};

use cluster_state::{Answer, Reply, Request};
use std::alloc::AllocError;

/// A request that is not answered yet.
#[derive(Drop)]
pub struct Waiting {
    /// The connection that it came by.
    pub conn: u64,
    /// When it came, in ms.
    pub arrived: u64,
    pub request: Request,
    /// Whether a state has what it asks for.
    pub processed: bool,
}

/// A reply, and the connection that it goes to.
#[derive(Drop)]
pub struct Outgoing {
    pub conn: u64,
    pub reply: Reply,
}

impl Waiting {
    /// The same request once more.
    pub fn copy(&self) -> Result<Waiting, AllocError>
        ensures { IfOk result (λ w. w ≡ self.now) }
    {
        Ok(Waiting {
            conn: self.conn,
            arrived: self.arrived,
            request: self.request.copy()?,
            processed: self.processed,
        })
    }

    /// The same request once more, processed.
    pub fn processed(&self) -> Result<Waiting, AllocError>
        ensures { IfOk result (λ w. w ≡ record self.now { processed = true }) }
    {
        let mut w = self.copy()?;
        w.processed = true;
        Ok(w)
    }

    /// The reply that answers the request.
    pub fn answer(&self, answer: Answer) -> Outgoing
        ensures { result ≡ answer_to self.now answer }
    {
        Outgoing {
            conn: self.conn,
            reply: Reply::To {
                id: self.request.id,
                answer,
            },
        }
    }
}
