//! The requests of one port to one bank that are not accepted yet, the oldest first.

ghost use Rattle.std.specs.Prelude.{◌≡◌, ℕ, true, false, [], ◌∷◌, ◌++◌, ◌<◌, drop, length, IfOk, OnOk, OnErr};
ghost use Rattle.std.specs.Prelude.{MatchOption};
ghost use Rattle.lf_rules.specs.State.{update};
ghost use Rattle.lf_rules.specs.Table.{is_head, oldest};
ghost use Rattle.bank_state.specs.Queues.{queue_at};

use crate::request::Request;
use lf_rules::NoMemory;
use std::alloc::Global;
use std::collections::VecDeque;
use std::marker::Model;

/// The requests of one port to one bank that are not accepted yet, the oldest first.
#[derive(Drop)]
pub struct Queue {
    requests: VecDeque<Request>,
}

impl Model for Queue {
    ghost use Rattle.std.specs.Prelude.{List};
    ghost use Rattle.lf_rules.specs.State as model;

    ghost Value = { List model.Request };

    ghost view = { λ q. q.requests.items };
}

impl Queue {
    /// No request yet.
    pub fn new(alloc: Global) -> Queue
        ensures { result ≡ [] }
    {
        Queue {
            requests: VecDeque::new(alloc),
        }
    }

    /// The oldest request, where it has the tag.
    pub fn head(&self, tag: u8) -> Option<&Request>
        ensures { MatchOption result (is_head self.now tag ≡ false)
            (λ request. (is_head self.now tag ≡ true) × (request.now ≡ oldest self.now)) }
    {
        let request = self.requests.front()?;
        if request.tag() == tag {
            Some(request)
        } else {
            None
        }
    }

    fn push(&mut self, request: Request) -> Result<(), NoMemory>
        ensures ok { OnOk result (self.new ≡ self.old ++ request ∷ []) }
        ensures err { OnErr result (self.new ≡ self.old) }
    {
        self.requests.push_back(request)?;
        Ok(())
    }

    /// The oldest request leaves.
    fn pop(&mut self) -> Option<Request>
        ensures rest { self.new ≡ drop 1 self.old }
        ensures oldest { MatchOption result (self.old ≡ []) (λ request. request ≡ oldest self.old) }
    {
        self.requests.pop_front()
    }
}

/// An empty queue for each port.
pub fn empty_queues(alloc: Global, ports: u32) -> Result<Vec<Queue>, NoMemory>
    ensures ports { IfOk result (λ queues. length queues.items ≡ ports) }
    ensures empty { IfOk result (λ queues. (port : ℕ) → queue_at queues.items port ≡ []) }
{
    let mut queues = Vec::new(alloc);
    for _ in 0..ports {
        queues.push(Queue::new(alloc))?;
    }
    Ok(queues)
}

/// The oldest request of the port, where it has the tag.
pub fn head(queues: &[Queue], port: u8, tag: u8) -> Option<&Request>
    ensures { let queue = queue_at queues.now port in
        MatchOption result (is_head queue tag ≡ false) (λ request. (is_head queue tag ≡ true) ×
        (request.now ≡ oldest queue)) }
{
    let queue = queues.get(usize::from(port))?;
    queue.head(tag)
}

/// The port's oldest request leaves.
pub fn drop_head(queues: &mut [Queue], port: u8)
    requires { port < length queues.old }
    ensures { queue_at queues.new ≡ update (queue_at queues.old) port (drop 1 (queue_at queues.old port)) }
{
    let _ = queues[usize::from(port)].pop();
}

/// The request joins the port's queue. `NoMemory` where the growth was refused, and nothing changes.
pub fn enqueue(queues: &mut [Queue], port: u8, request: Request) -> Result<(), NoMemory>
    requires { port < length queues.old }
    ensures ok { OnOk result (queue_at queues.new ≡ update (queue_at queues.old) port
        (queue_at queues.old port ++ request ∷ [])) }
    ensures err { OnErr result (queues.new ≡ queues.old) }
{
    queues[usize::from(port)].push(request)
}
