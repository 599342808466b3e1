//! Replies go out, and connections are closed.

ghost use Rattle.std.specs.Prelude.{◌≡◌, ◌≤◌, ◌+◌, length, IfSome};
ghost use Rattle.std.specs.Option.{option_to_list};
ghost use Rattle.intake_front.specs.Served.{closing};
ghost use Rattle.server_run.specs.Sending.{SendsReply, Shuts, Delivers, Shows, outgoing};

use intake_front::{Answer, Reply, Stop};
use outside::Wire;

/// Sends a reply. Where the send fails, the count of the wire rises and the run goes on.
fn send<W: Wire>(wire: &mut W, reply: &Option<Reply>)
    ensures sent { IfSome (W.tells wire.old).sent (SendsReply (W.tells wire.old) (W.tells wire.new) reply.now) }
    ensures sends { (W.tells wire.new).sends ≡ (W.tells wire.old).sends + length (option_to_list reply.now) }
    ensures later { (W.tells wire.old).unsent ≤ (W.tells wire.new).unsent }
    ensures left { (W.tells wire.new).left ≡ (W.tells wire.old).left }
    ensures given { (W.tells wire.new).given ≡ (W.tells wire.old).given }
    ensures closed { (W.tells wire.new).closed ≡ (W.tells wire.old).closed }
    ensures faults { (W.tells wire.new).faults ≡ (W.tells wire.old).faults }
{
    if let Some(reply) = reply {
        let _ = wire.send(reply.conn, reply.bytes.as_slice());
    }
}

/// Closes a connection, where there is one to be closed.
fn shut<W: Wire>(wire: &mut W, conn: Option<u64>)
    ensures shut { Shuts (W.tells wire.old).closed (W.tells wire.new).closed (closing (W.tells wire.old).sends conn) }
    ensures sent { (W.tells wire.new).sent ≡ (W.tells wire.old).sent }
    ensures sends { (W.tells wire.new).sends ≡ (W.tells wire.old).sends }
    ensures left { (W.tells wire.new).left ≡ (W.tells wire.old).left }
    ensures given { (W.tells wire.new).given ≡ (W.tells wire.old).given }
    ensures faults { (W.tells wire.new).faults ≡ (W.tells wire.old).faults }
    ensures unsent { (W.tells wire.new).unsent ≡ (W.tells wire.old).unsent }
{
    if let Some(conn) = conn {
        wire.close(conn);
    }
}

/// Sends the reply of an answer, and then closes the connection that it closes.
fn deliver<W: Wire>(wire: &mut W, answer: &Answer)
    ensures delivers { Delivers (W.tells wire.old) (W.tells wire.new) answer.now }
    ensures left { (W.tells wire.new).left ≡ (W.tells wire.old).left }
    ensures given { (W.tells wire.new).given ≡ (W.tells wire.old).given }
    ensures faults { (W.tells wire.new).faults ≡ (W.tells wire.old).faults }
{
    send(wire, &answer.reply);
    shut(wire, answer.shut);
}

/// Sends the replies of answers and closes their connections, in the order of the answers. Answers why no event
/// follows the last of them, where one doesn't.
pub(crate) fn deliver_all<W: Wire>(wire: &mut W, answers: &[Answer]) -> Option<Stop>
    ensures stop { result ≡ (outgoing answers.now).stop }
    ensures shows { Shows (W.tells wire.old) (W.tells wire.new) (outgoing answers.now).replies
        (outgoing answers.now).shut }
    ensures later { (W.tells wire.old).unsent ≤ (W.tells wire.new).unsent }
    ensures left { (W.tells wire.new).left ≡ (W.tells wire.old).left }
    ensures given { (W.tells wire.new).given ≡ (W.tells wire.old).given }
    ensures faults { (W.tells wire.new).faults ≡ (W.tells wire.old).faults }
{
    let mut stop = None;
    for answer in answers {
        deliver(wire, answer);
        stop = answer.stop;
    }
    stop
}
