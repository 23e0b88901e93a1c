//! A class, line by line. "Own choice" marks this project's own choice (docs/JASMIN.md).

ghost use Rattle.std.specs.Prelude.{◌≡◌, OnOk, is_some, true};
ghost use Rattle.sequence.specs.Gives.{Gives};
ghost use Rattle.jasmin_words.specs.Lexing.{views};
ghost use Rattle.jasmin_text.specs.Forms.{form_at};
ghost use Rattle.jasmin_reader.specs.File.{empty_reader};
ghost use Rattle.jasmin_reader.specs.Listing.{behind_colon as behind_colon_of};
ghost use Rattle.jasmin_reader.specs.Reading.{is_in_class, is_in_header, member_room, may_stand as may_stand_at, with_row, said_row, empty_body, open_at, end_line, directive_line, stray_by, statement_line, no_word as no_word_of, line_at};

use crate::body::{Body, behind_end};
use crate::head::HeadWords;
use crate::labels::Labels;
use crate::listing::{Listing, behind_colon, unknown_word};
use crate::member::MethodHead;
use crate::place::{LineError, ended, first, wanted};
use crate::said::{Said, said_behind};
use crate::values::begins;
use descriptors::ClassName;
use jasmin_text::form::{Directive, directive_of, form_of};
use jasmin_text::{Field, Method};
use jasmin_words::name::is_label;
use jasmin_words::{FaultKind, Token};
use sequence::{Refusal, Sequence};
use std::alloc::{AllocError, Global};

/// The limit of a method's stack and of its locals where no line gives one: own choice.
const DEFAULT_LIMIT: u16 = 1_024;

/// The most direct superinterfaces of a class.
const MOST_INTERFACES: usize = 255;

/// The most fields and methods of a class.
const MOST_MEMBERS: usize = 1_024;

/// A class, as far as it is read.
#[derive(Drop)]
pub(crate) struct Reader {
    pub class: Option<(HeadWords, ClassName)>,
    pub superclass: Option<ClassName>,
    pub interfaces: Sequence<ClassName>,
    pub fields: Sequence<Field>,
    pub methods: Sequence<Method>,
    /// The method whose `.end method` has not come.
    pub body: Option<Body>,
}

/// A method without lines.
fn opened(alloc: Global, head: MethodHead) -> Body
    ensures { result ≡ empty_body head.access head.name head.method_type }
{
    let MethodHead {
        access,
        name,
        method_type,
    } = head;
    Body {
        access,
        name,
        method_type,
        stack: DEFAULT_LIMIT,
        locals: DEFAULT_LIMIT,
        labels: Labels::new(alloc),
        catches: Sequence::new(alloc),
        listing: Listing::new(alloc),
    }
}

/// The fault of an instruction or a label outside of a method.
fn stray(word: &[u8], rest: &[Token<'_>]) -> FaultKind
    ensures { result ≡ stray_by word.now (behind_colon_of (views rest.now)) (form_at word.now) }
{
    match behind_colon(rest) {
        Some(_) if is_label(word) => FaultKind::Misplaced,
        Some(_) => FaultKind::UnknownInstruction,
        None => match form_of(word) {
            Some(_) => FaultKind::Misplaced,
            None => unknown_word(word),
        },
    }
}

impl Reader {
    /// Nothing is read.
    pub(crate) fn new(alloc: Global) -> Self
        ensures { result ≡ empty_reader }
    {
        Reader {
            class: None,
            superclass: None,
            interfaces: Sequence::new(alloc),
            fields: Sequence::new(alloc),
            methods: Sequence::new(alloc),
            body: None,
        }
    }

    /// Whether a field or a method may come here.
    fn in_class(&self) -> bool
        ensures { result ≡ is_in_class self.now }
    {
        self.class.is_some() && self.body.is_none()
    }

    /// Whether the line comes after `.class` and before all fields and methods.
    fn in_header(&self) -> bool
        ensures { result ≡ is_in_header self.now }
    {
        self.class.is_some()
            && self.body.is_none()
            && self.fields.len() == 0
            && self.methods.len() == 0
    }

    /// Whether one more field or method may come.
    fn takes_member(&self) -> bool
        ensures { result ≡ member_room self.now }
    {
        self.methods.len() < MOST_MEMBERS && self.fields.len() < MOST_MEMBERS - self.methods.len()
    }

    /// Whether the line of the directive may stand here, with room for what it says.
    fn may_stand(&self, directive: Directive) -> Result<(), LineError>
        ensures { Gives (λ x. x) result (may_stand_at self.now directive) }
    {
        match directive {
            Directive::Class | Directive::Interface => wanted(
                self.class.is_none(),
                FaultKind::Misplaced,
            ),
            Directive::Super => {
                wanted(
                    self.in_header() && self.superclass.is_none(),
                    FaultKind::Misplaced,
                )
            }
            Directive::Implements => {
                if !self.in_header() {
                    return Err(Refusal::Fault(FaultKind::Misplaced));
                }
                wanted(
                    self.interfaces.len() < MOST_INTERFACES,
                    FaultKind::LimitExceeded,
                )
            }
            Directive::Field | Directive::Method => {
                if !self.in_class() {
                    return Err(Refusal::Fault(FaultKind::Misplaced));
                }
                wanted(self.takes_member(), FaultKind::LimitExceeded)
            }
            Directive::Limit | Directive::Catch => self.in_method(),
            _ => Ok(()),
        }
    }

    /// The class with what a line says.
    fn add(&mut self, alloc: Global, said: Said) -> Result<(), AllocError>
        ensures { OnOk result (self.new ≡ with_row self.old (said_row said)) }
    {
        match said {
            Said::Class(named) => {
                self.class = Some(named);
                Ok(())
            }
            Said::Super(name) => {
                self.superclass = Some(name);
                Ok(())
            }
            Said::Implements(name) => self.interfaces.push(name),
            Said::Field(field) => self.fields.push(field),
            Said::Method(head) => {
                drop(self.body.replace(opened(alloc, head)));
                Ok(())
            }
            Said::Setting(setting) => match &mut self.body {
                Some(body) => body.set(setting),
                None => Ok(()),
            },
        }
    }

    /// A method is open, and no switch in it.
    fn in_method(&self) -> Result<(), LineError>
        ensures open { OnOk result (is_some self.now.body ≡ true) }
        ensures gives { Gives (λ x. x) result (open_at self.now.body) }
    {
        match &self.body {
            Some(body) if !body.listing.is_in_switch() => Ok(()),
            _ => Err(Refusal::Fault(FaultKind::Misplaced)),
        }
    }

    #[tactic(auto, unfolding(crate::specs::Reading::end_line))]
    fn end(&mut self, alloc: Global, tokens: &[Token<'_>]) -> Result<(), LineError>
        ensures { Gives (λ _. self.new) result (end_line self.old (views tokens.now)) }
    {
        let rest = behind_end(tokens)?;
        self.in_method()?;
        match self.body.take() {
            None => unreachable!(),
            Some(body) => {
                let method = body.close(alloc)?;
                self.methods.push(method)?;
                ended(rest)
            }
        }
    }

    /// A line that begins with this directive.
    #[tactic(auto, unfolding(crate::specs::Reading::directive_line))]
    fn directive(
        &mut self,
        alloc: Global,
        directive: Directive,
        tokens: &[Token<'_>],
    ) -> Result<(), LineError>
        ensures { Gives (λ _. self.new) result (directive_line self.old directive (views tokens.now)) }
    {
        match directive {
            Directive::End => self.end(alloc, tokens),
            Directive::Skipped => Ok(()),
            other => {
                self.may_stand(other)?;
                let said = said_behind(alloc, other, tokens)?;
                self.add(alloc, said)?;
                Ok(())
            }
        }
    }

    /// A line that begins with this word, which is no directive.
    fn statement(&mut self, alloc: Global, word: &[u8], rest: &[Token<'_>]) -> Result<(), LineError>
        ensures { Gives (λ _. self.new) result (statement_line self.old word.now (views rest.now) self.old.body) }
    {
        match &mut self.body {
            None => Err(Refusal::Fault(stray(word, rest))),
            Some(body) => body.statement(alloc, word, rest),
        }
    }

    /// The fault of a line that begins with no word.
    fn no_word(&self) -> FaultKind
        ensures { result ≡ no_word_of self.now.body }
    {
        match &self.body {
            Some(body) if body.listing.is_in_switch() => FaultKind::BadOperand,
            _ => FaultKind::UnknownInstruction,
        }
    }

    /// What the words of the next line add.
    #[tactic(auto, unfolding(crate::specs::Reading::line_at))]
    pub(crate) fn line(&mut self, alloc: Global, tokens: &[Token<'_>]) -> Result<(), LineError>
        ensures { Gives (λ _. self.new) result (line_at self.old (views tokens.now)) }
    {
        match tokens {
            [] => Ok(()),
            [token, rest @ ..] => {
                let word = first(self.no_word(), token)?;
                match directive_of(word) {
                    Some(directive) => self.directive(alloc, directive, rest),
                    None => {
                        if begins(b'.', word) {
                            return Err(Refusal::Fault(FaultKind::UnknownDirective));
                        }
                        self.statement(alloc, word, rest)
                    }
                }
            }
        }
    }
}
