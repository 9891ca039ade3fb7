//! Policies.
ghost use Rattle.std.specs.Prelude.{◌≡◌, ◌≤◌, ℕ, true, false, List, Ok, option_map, IfOk, IfErr, IsTrue};
ghost use Rattle.history_model.specs.History.{Entry, Known, Policy, is_down, holds_policy, policy_text, policy_of, policy_at};
ghost use Rattle.policy_model.specs.Held.{rules_in};
ghost use Rattle.reply_model.specs.Reply.{SetPolicy, judge, policy_asked, told};
ghost use Rattle.std.specs.Option.{option_copied};
ghost use Rattle.changeset_model.specs.Version.{is_second};
ghost use Rattle.policy_model.specs.Grammar.{parse};
ghost use Rattle.reply_model.specs.Reply.{is_ask};
ghost use Rattle.repo_events.specs.Entries.{body_of};
ghost use Rattle.repo_machine.specs.Records.{body_of as record_of};
ghost use Rattle.repo_machine.specs.Made.{made_of, IsMadeReady};
ghost use Rattle.repo_machine.specs.Policies.{IsPolicyRead, IsReadOf};
ghost use Rattle.reply_model.specs.Legal.{IsLegal};
ghost use Rattle.repo_calls.specs.Refusing.{IsRefusal};
ghost use Rattle.repo_machine.specs.Entering.{Judges};

use crate::judged::{Judged, Made, PolicyMade};
use crate::machine::Machine;
use crate::records::{PolicyRecord, Record};
use held_policy::check_policy;
use land_policy::{PolicyFault, Rules};
use repo_calls::{Granted, Refusal};
use repo_events::{Body, encode_entry};
use repo_path::BookName;
use std::alloc::{AllocError, Global};

/// A policy that was read, where no machine is at hand: its text with its rules, and the record that would store it.
#[derive(Drop)]
pub(crate) struct ReadPolicy {
    pub(crate) made: Made,
    pub(crate) frame: Vec<u8>,
}

/// A text that was read, or the first line that breaks the grammar.
#[derive(Drop)]
pub(crate) enum ReadText {
    Policy(ReadPolicy),
    Bad { line: u64 },
}

impl Machine {
    /// Whether a policy is held. Then entries tell their callers.
    pub fn holds_policy(&self) -> bool
        ensures { result ≡ holds_policy self.now.history }
    {
        self.held.is_some()
    }

    /// The text of the policy that is held, or of the one that has this number in the log.
    pub fn policy(&self, number: Option<u64>) -> Option<&[u8]>
        ensures { option_map (λ text. text.now) result ≡ policy_asked self.now.history number }
    {
        match number {
            Some(number) => self.policy_at(number),
            None => self.policy_held(),
        }
    }

    // The text of the policy that is held.
    fn policy_held(&self) -> Option<&[u8]>
        ensures { option_map (λ text. text.now) result ≡ policy_of self.now.history }
    {
        match &self.held {
            Some(held) => self.policy_at(held.number),
            None => None,
        }
    }

    // The text of the policy that is the stored entry of this number.
    fn policy_at(&self, number: u64) -> Option<&[u8]>
        ensures { option_map (λ text. text.now) result ≡ policy_at self.now.history number }
    {
        if number >= self.kept.len() as u64 {
            return None;
        }
        let at = self.kept[number as usize];
        text_of(&self.entries[at].record)
    }

    /// Judges a policy that was read for the seat `who` and this caller, and makes room for it and for one fault after it.
    pub(crate) fn judge_policy(
        &mut self,
        alloc: Global,
        who: u64,
        caller: &BookName,
        text: &[u8],
        read: ReadText,
    ) -> Result<Judged, Refusal>
        requires read { IsReadOf caller.now text.now read }
        ensures ok { IfOk result (Judges self.old.header self.old.history self.new.room who (SetPolicy caller.now text.now)) }
        ensures err { IfErr result (IsRefusal (judge self.old.header self.old.history (SetPolicy caller.now text.now))) }
        ensures header { self.new.header ≡ self.old.header }
        ensures history { self.new.history ≡ self.old.history }
        ensures keeps { self.old.room.entries ≤ self.new.room.entries }
        ensures legal { IsLegal self.old.header self.old.history }
    {
        self.check_up()?;
        if !self.version.is_second() {
            return Err(Refusal::OldFormat);
        }
        match read {
            ReadText::Policy(policy) => self.judge_read(alloc, who, caller, text, policy),
            ReadText::Bad { line } => Err(Refusal::BadPolicy { line }),
        }
    }

    // The same of a text that keeps the grammar, where no disk failed and the file is of the second version.
    fn judge_read(
        &mut self,
        alloc: Global,
        who: u64,
        caller: &BookName,
        text: &[u8],
        policy: ReadPolicy,
    ) -> Result<Judged, Refusal>
        requires up { is_down self.old.history ≡ false }
        requires version { is_second self.old.header.version ≡ true }
        requires read { IsPolicyRead caller.now text.now policy }
        ensures ok { IfOk result (Judges self.old.header self.old.history self.new.room who (SetPolicy caller.now text.now)) }
        ensures err { IfErr result (IsRefusal (judge self.old.header self.old.history (SetPolicy caller.now text.now))) }
        ensures header { self.new.header ≡ self.old.header }
        ensures history { self.new.history ≡ self.old.history }
        ensures keeps { self.old.room.entries ≤ self.new.room.entries }
    {
        keep_rules(caller, text);
        check_policy(self.rules(), caller)?;
        let granted = Granted::Policy {
            number: self.stored_length(),
        };
        let ReadPolicy { made, frame } = policy;
        self.make_framed(alloc, who, granted, made, frame)
    }

    /// Reads and judges a policy for the seat `who` and this caller, as one that was decoded of a payload, and makes room for it
    /// and for one fault after it.
    pub fn judge_policy_of(
        &mut self,
        alloc: Global,
        who: u64,
        caller: &BookName,
        text: &[u8],
    ) -> Result<Judged, Refusal>
        ensures ok { IfOk result (Judges self.old.header self.old.history self.new.room who (SetPolicy caller.now text.now)) }
        ensures err { IfErr result (IsRefusal (judge self.old.header self.old.history (SetPolicy caller.now text.now))) }
        ensures header { self.new.header ≡ self.old.header }
        ensures history { self.new.history ≡ self.old.history }
        ensures keeps { self.old.room.entries ≤ self.new.room.entries }
        ensures legal { IsLegal self.old.header self.old.history }
    {
        self.check_up()?;
        let read = read_policy(alloc, caller, text)?;
        self.judge_policy(alloc, who, caller, text, read)
    }

    // The rules that are held.
    pub(crate) fn rules(&self) -> Option<&Rules>
        ensures { option_copied result ≡ option_map rules_in (policy_of self.now.history) }
    {
        match &self.held {
            Some(held) => Some(&held.rules),
            None => None,
        }
    }

    // The caller, whom an entry tells where a policy is held.
    pub(crate) fn told(
        &self,
        alloc: Global,
        caller: &BookName,
    ) -> Result<Option<BookName>, AllocError>
        ensures { IfOk result (λ caller_told. caller_told ≡ told self.now.history caller.now) }
    {
        match self.held {
            Some(_) => Ok(Some(caller.copy(alloc)?)),
            None => Ok(None),
        }
    }
}

// Reads a policy, and makes its record. No machine is looked at.
pub(crate) fn read_policy(
    alloc: Global,
    caller: &BookName,
    text: &[u8],
) -> Result<ReadText, AllocError>
    ensures { IfOk result (IsReadOf caller.now text.now) }
{
    match Rules::parse(alloc, text) {
        Ok(rules) => Ok(ReadText::Policy(framed_policy(alloc, caller, text, rules)?)),
        Err(PolicyFault::BadPolicy { line }) => Ok(ReadText::Bad { line: line as u64 }),
        Err(PolicyFault::Memory) => Err(AllocError),
    }
}

// A policy of these rules, with the record that would store it.
fn framed_policy(
    alloc: Global,
    caller: &BookName,
    text: &[u8],
    rules: Rules,
) -> Result<ReadPolicy, AllocError>
    requires { parse text.now ≡ Ok rules }
    ensures { IfOk result (IsPolicyRead caller.now text.now) }
{
    keep_rules(caller, text);
    let body = Body::Policy {
        caller: caller.copy(alloc)?,
        text: Vec::from_slice(alloc, text)?,
    };
    let frame = encode_entry(alloc, &body, &[])?;
    let made = policy_made(alloc, body, rules)?;
    Ok(ReadPolicy { made, frame })
}

// What is entered of a policy.
fn policy_made(alloc: Global, body: Body, rules: Rules) -> Result<Made, AllocError>
    requires { (caller text : List ℕ) × (body_of body ≡ Policy caller text) × (parse text ≡ Ok rules) }
    ensures made { IfOk result (λ made. made_of made ≡ body_of body) }
    ensures ready { IfOk result IsMadeReady }
{
    match body {
        Body::Policy { caller, text } => {
            let kept = Box::new(alloc, PolicyRecord { caller, text })?;
            Ok(Made::Policy(PolicyMade { kept, rules }))
        }
        _ => unreachable!(),
    }
}

// What is asked keeps the rules of a name and of bytes.
fn keep_rules(caller: &BookName, text: &[u8])
    ensures { (h : List Entry) → IsTrue (is_ask h (SetPolicy caller.now text.now)) }
{
    let _caller = caller.as_str();
    let _text = text;
}

// The text of an entry that is a policy.
fn text_of(record: &Record) -> Option<&[u8]>
    ensures { (ks : List Known) → option_map (λ text. text.now) result ≡ policy_text (record_of ks «record».now) }
{
    match record {
        Record::Policy(policy) => Some(policy.text.as_slice()),
        Record::Content { .. }
        | Record::Whole(_)
        | Record::Change { .. }
        | Record::Book(_)
        | Record::Land(_)
        | Record::Fault { .. } => None,
    }
}
