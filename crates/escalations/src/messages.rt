//! The records of steps and of recovery operations.

ghost use Rattle.std.specs.Prelude.{◌≡◌, ◌++◌, map, filter, flat_map, Some, None, IfOk, OnOk};
ghost use Rattle.escalations.specs.Messages.{message_to, operation_records, step_records, sending_records};
ghost use Rattle.escalations.specs.Steps.{has_step};

use crate::steps::has_step;
use event_text::message;
use std::alloc::Global;
use zbx_types::{Action, Conf, Many, Moment, Operation, OutOfMemory, Rec, Sending, Text};

/// Of what messages tell, and who sends them.
#[derive(Clone, Copy)]
pub(crate) struct Sender<'a> {
    /// The configuration.
    pub(crate) conf: &'a Conf,
    /// The problem.
    pub(crate) problem: &'a Rec,
    /// When it closed, in messages of its recovery.
    pub(crate) recovered: Option<Moment>,
    /// The name of the action.
    pub(crate) action: &'a Text,
    /// The number of the step, or 0 for the recovery.
    pub(crate) step: u32,
}

/// The message to a recipient with this subject and body.
fn message_to(
    alloc: Global,
    sender: &Sender,
    subject: &Text,
    body: &Text,
    recipient: &Text,
) -> Result<Rec, OutOfMemory>
    ensures { IfOk result (λ made. made ≡ message_to sender.now.conf.now sender.now.problem.now sender.now.recovered sender.now.action.now sender.now.step subject.now body.now recipient.now) }
{
    Ok(Rec::Message {
        event: sender.problem.event(),
        action: sender.action.copy(alloc)?,
        step: sender.step,
        recipient: recipient.copy(alloc)?,
        subject: message(
            alloc,
            sender.conf,
            sender.problem,
            subject,
            sender.recovered,
        )?,
        body: message(alloc, sender.conf, sender.problem, body, sender.recovered)?,
    })
}

/// Adds the messages to recipients.
fn push_messages(
    alloc: Global,
    sender: &Sender,
    subject: &Text,
    body: &Text,
    recipients: &[Text],
    out: &mut Many<Rec>,
) -> Result<(), OutOfMemory>
    ensures { OnOk result (out.new ≡ out.old ++ map (message_to sender.now.conf.now sender.now.problem.now sender.now.recovered sender.now.action.now sender.now.step subject.now body.now) recipients.now) }
{
    for recipient in recipients {
        out.push(message_to(alloc, sender, subject, body, recipient)?)?;
    }
    Ok(())
}

/// Adds what operations send at a step: those to which it belongs.
fn push_operations(
    alloc: Global,
    conf: &Conf,
    problem: &Rec,
    action: &Text,
    step: u32,
    operations: &[Operation],
    out: &mut Many<Rec>,
) -> Result<(), OutOfMemory>
    ensures { OnOk result (out.new ≡ out.old ++ flat_map (operation_records conf.now problem.now action.now step) (filter (has_step step) operations.now)) }
{
    let sender = Sender {
        conf,
        problem,
        recovered: None,
        action,
        step,
    };
    for operation in operations {
        if has_step(step, operation) {
            let recipients = operation.recipients.as_slice();
            push_messages(
                alloc,
                &sender,
                &operation.subject,
                &operation.body,
                recipients,
                out,
            )?;
        }
    }
    Ok(())
}

/// Adds what a step of an action makes that runs now.
pub(crate) fn push_step(
    alloc: Global,
    conf: &Conf,
    problem: &Rec,
    now: Moment,
    action: &Action,
    step: u32,
    out: &mut Many<Rec>,
) -> Result<(), OutOfMemory>
    ensures { OnOk result (out.new ≡ out.old ++ step_records conf.now problem.now now action.now step) }
{
    let operations = action.operations.as_slice();
    out.push(Rec::Step {
        event: problem.event(),
        action: action.name.copy(alloc)?,
        step,
        now,
    })?;
    push_operations(alloc, conf, problem, &action.name, step, operations, out)
}

/// Adds what recovery operations send.
pub(crate) fn push_sendings(
    alloc: Global,
    conf: &Conf,
    problem: &Rec,
    now: Moment,
    action: &Text,
    sendings: &[Sending],
    out: &mut Many<Rec>,
) -> Result<(), OutOfMemory>
    ensures { OnOk result (out.new ≡ out.old ++ flat_map (sending_records conf.now problem.now now action.now) sendings.now) }
{
    let sender = Sender {
        conf,
        problem,
        recovered: Some(now),
        action,
        step: 0,
    };
    for sending in sendings {
        let recipients = sending.recipients.as_slice();
        push_messages(
            alloc,
            &sender,
            &sending.subject,
            &sending.body,
            recipients,
            out,
        )?;
    }
    Ok(())
}
