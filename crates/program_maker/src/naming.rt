//! Core code with numbers in the place of names.

ghost use Rattle.std.specs.Prelude.{◌≡◌, IfOk};
ghost use Rattle.lowering.specs.Acts.{noted};
ghost use Rattle.lowering.specs.Noted.{claim_in};
ghost use Rattle.lowering.specs.Numbers as spec;
ghost use Rattle.lowering.specs.Numbers.{class_number};
ghost use Rattle.program_maker.specs.Kept.{field_at, numbers_as};
ghost use Rattle.program_maker.specs.InstrNumbers.{instr_number};

use crate::numbering::number_of;
use crate::numbers::NameNumbers;
use core_model::{Body, Claim, Instr, Known, Note, Plain, Value};
use desk_base::{Name, OutOfMemory};
use lowering::{Constant, NamedClaim, NamedCode, NamedInstr, NamedKnown, NamedNote, NamedPlain};
use std::alloc::Global;

fn or_zero(number: Option<u32>) -> u32
    ensures { result ≡ spec.or_zero number }
{
    match number {
        Some(number) => number,
        None => 0,
    }
}

impl<'a> NameNumbers<'a> {
    ghost use Rattle.std.specs.Prelude.{Option};
    ghost use Rattle.std.specs.Option.{option_copied};

    /// The number of a class, which is 0 where it has none.
    pub(crate) fn class(&self, class: &[u8]) -> u32
        ensures { result ≡ class_number (numbers_as self.now) class.now }
    {
        or_zero(number_of(&self.classes, class))
    }

    fn place_in_class(&self, class: &[u8], field: &[u8]) -> Option<u32>
        ensures { result ≡ field_at self.now class.now field.now }
    {
        let class = number_of(&self.classes, class)? as usize;
        let fields = self.fields.as_slice().get(class)?;
        number_of(fields, field)
    }

    fn field(&self, class: &[u8], field: &[u8]) -> u32
        ensures { result ≡ (numbers_as self.now).field class.now field.now }
    {
        or_zero(self.place_in_class(class, field))
    }

    /// The number of a member's name.
    pub(crate) fn member(&self, name: &[u8]) -> u32
        ensures { result ≡ (numbers_as self.now).member name.now }
    {
        or_zero(self.members.place(name))
    }

    /// The number of a text.
    pub(crate) fn text(&self, text: &[u8]) -> u32
        ensures { result ≡ (numbers_as self.now).text text.now }
    {
        or_zero(self.texts.place(text))
    }

    fn claim(&self, claim: &NamedClaim) -> Claim
        ensures { result ≡ spec.claim_number (numbers_as self.now) (claim_in claim.now) }
    {
        match claim {
            NamedClaim::Local(local) => Claim::Local(*local),
            NamedClaim::Field(local, class, field) => {
                Claim::Field(*local, self.field(class.as_slice(), field.as_slice()))
            }
            NamedClaim::Static(class, field) => Claim::Static(
                self.class(class.as_slice()),
                self.field(class.as_slice(), field.as_slice()),
            ),
            NamedClaim::Class(class) => Claim::Class(self.class(class.as_slice())),
        }
    }

    fn known_class(&self, class: &[u8]) -> Known
        ensures { result ≡ spec.class_known ((numbers_as self.now).class class.now) }
    {
        match number_of(&self.classes, class) {
            Some(class) => Known::Class(class),
            None => Known::Nothing,
        }
    }

    fn known(&self, known: &NamedKnown) -> Known
        ensures { result ≡ spec.known_number (numbers_as self.now) known.now }
    {
        match known {
            NamedKnown::Nothing => Known::Nothing,
            NamedKnown::Class(class) => self.known_class(class.as_slice()),
            NamedKnown::Monitor(claim) => Known::Monitor(self.claim(claim)),
        }
    }

    fn note(&self, note: &NamedNote) -> Note
        ensures { result ≡ spec.note_number (numbers_as self.now) note.now }
    {
        Note {
            place: note.place,
            known: self.known(&note.known),
        }
    }

    fn constant(&self, constant: &Constant) -> Value
        ensures { result ≡ spec.constant_number (numbers_as self.now) constant.now }
    {
        match constant {
            Constant::Int(number) => Value::Int(*number),
            Constant::Boolean(is_true) => Value::Bool(*is_true),
            Constant::Null => Value::Null,
            Constant::Text(text) => Value::Str(self.text(text.as_slice())),
        }
    }

    /// The number of a field of the class that is noted.
    fn noted_field(&self, known: &NamedKnown, field: &Name) -> u32
        ensures { result ≡ (numbers_as self.now).field (spec.or_empty (noted known.now)) field.now }
    {
        match known {
            NamedKnown::Class(class) => self.field(class.as_slice(), field.as_slice()),
            NamedKnown::Nothing | NamedKnown::Monitor(_) => self.field(&[], field.as_slice()),
        }
    }

    fn plain(&self, known: &NamedKnown, plain: &NamedPlain) -> Plain
        ensures { result ≡ spec.plain_number (numbers_as self.now) known.now plain.now }
    {
        match plain {
            NamedPlain::Const(constant) => Plain::Const(self.constant(constant)),
            NamedPlain::Get(local) => Plain::Get(*local),
            NamedPlain::Set(local) => Plain::Set(*local),
            NamedPlain::Drop => Plain::Drop,
            NamedPlain::Field(field) => Plain::Field(self.noted_field(known, field)),
            NamedPlain::FieldKeep(field) => Plain::FieldKeep(self.noted_field(known, field)),
            NamedPlain::PutField(field) => Plain::PutField(self.noted_field(known, field)),
            NamedPlain::Static(class, field) => Plain::Static(
                self.class(class.as_slice()),
                self.field(class.as_slice(), field.as_slice()),
            ),
            NamedPlain::PutStatic(class, field) => Plain::PutStatic(
                self.class(class.as_slice()),
                self.field(class.as_slice(), field.as_slice()),
            ),
            NamedPlain::Make(class, count) => Plain::Make(self.class(class.as_slice()), *count),
            NamedPlain::MakePlain => Plain::MakePlain,
            NamedPlain::Call(member, count) => {
                Plain::Call(self.member(member.as_slice()), *count)
            }
            NamedPlain::CallStatic(class, member, count) => Plain::CallStatic(
                self.class(class.as_slice()),
                self.member(member.as_slice()),
                *count,
            ),
            NamedPlain::Op(op) => Plain::Op(*op),
            NamedPlain::Neg => Plain::Neg,
            NamedPlain::Not => Plain::Not,
            NamedPlain::Start => Plain::Start,
            NamedPlain::Return => Plain::Return,
            NamedPlain::ReturnValue => Plain::ReturnValue,
        }
    }

    #[cycle(numbered)]
    fn instr(&self, alloc: Global, instr: &NamedInstr) -> Result<Instr, OutOfMemory>
        ensures { IfOk result (λ numbered. numbered ≡ instr_number (numbers_as self.now) instr.now) }
    {
        Ok(match instr {
            NamedInstr::Do(note, plain) => {
                Instr::Do(self.note(note), self.plain(&note.known, plain))
            }
            NamedInstr::If(note, yes, no) => Instr::If(
                self.note(note),
                self.code(alloc, yes)?,
                self.code(alloc, no)?,
            ),
            NamedInstr::While(note, condition, body) => Instr::While(
                self.note(note),
                self.code(alloc, condition)?,
                self.code(alloc, body)?,
            ),
            NamedInstr::Enter(note, block) => {
                Instr::Enter(self.note(note), self.code(alloc, block)?)
            }
            NamedInstr::EnterClass(note, class, block) => Instr::EnterClass(
                self.note(note),
                self.class(class.as_slice()),
                self.code(alloc, block)?,
            ),
        })
    }

    /// The code with numbers in the place of names.
    #[cycle(numbered)]
    pub(crate) fn code(&self, alloc: Global, code: &NamedCode) -> Result<Body, OutOfMemory>
        ensures { IfOk result (λ body. body ≡ spec.numbered (numbers_as self.now) code.now) }
    {
        let mut body = Body::new(alloc);
        for instr in code.instrs() {
            body.push(self.instr(alloc, instr)?)?;
        }
        Ok(body)
    }
}
