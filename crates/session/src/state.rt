ghost use Rattle.std.specs.Prelude.{◌≡◌, Some, IfOk, IfErr, IfSome, OnOk, OnErr};
ghost use Rattle.std.specs.List.{AllByRecursion};
ghost use Rattle.std.specs.Option.{option_and_then, option_map};
ghost use Rattle.ios_acl.specs.List.{AccessList};
ghost use Rattle.frame.specs.Question.{asked, IsOfPacket};
ghost use Rattle.ios_config.specs.Faults.{IsFault};
ghost use Rattle.ios_config.specs.Reading.{Reads};
ghost use Rattle.session.specs.Kept.{IsPlace, adding, knowing, list_at, posed};
ghost use Rattle.session.specs.Library.{is_taken, list_at_path, list_of};
ghost use Rattle.session.specs.Policies as specs;
ghost use Rattle.session.specs.Run.{no_routers};
ghost use Rattle.session.specs.Steps.{asking};

use crate::ended::Reason;
use crate::known_names::KnownNames;
use crate::library::{Loaded, is_router};
use crate::locate::{Place, list_at, list_at_path, place_of};
use crate::policies::explore_fault;
use frame::Test;
use ios_acl::{Acl, Entry, Verdict};
use ios_config::{ConfigFault, Router, read_config};
use ios_lex::Word;
use ios_names::NameTable;
use query_lang::Explore;
use sorted_logic::Text;
use std::alloc::{AllocError, Global};
use std::marker::Model;

/// The question of an EXPLORE, about the list at a place.
#[derive(Drop)]
pub struct Kept {
    place: Place,
    verdict: Verdict,
    tests: Vec<Test>,
    /// How many names of interfaces were known.
    known: u64,
}

/// A question: which requests these entries decide so, and which pass the tests; with the names of interfaces that were
/// known when it was asked.
#[derive(Drop)]
pub struct Question<'a> {
    pub entries: &'a [Entry],
    pub verdict: Verdict,
    pub tests: &'a [Test],
    pub names: KnownNames<'a>,
}

/// What a run knows between two statements.
#[derive(Drop)]
pub struct State {
    library: Vec<Loaded>,
    /// The names of the interfaces of all routers that were loaded.
    names: NameTable,
    kept: Option<Kept>,
}

impl Model for State {
    ghost use Rattle.session.specs.Kept.{question_at, IsKept};
    ghost use Rattle.session.specs.Steps.{State as Meaning};

    ghost Value = { Meaning };

    ghost view = { λ s. record {
      library = s.library.items;
      names = s.names;
      question = question_at s.library.items s.names s.kept;
    } };

    ghost invariant = { λ s. IsKept s.library.items s.names s.kept };
}

impl State {
    /// Nothing is loaded, and nothing is asked.
    pub fn new(alloc: Global) -> State
        ensures { result ≡ no_routers }
    {
        State {
            library: Vec::new(alloc),
            names: NameTable::new(alloc),
            kept: None,
        }
    }

    /// Whether no router may be loaded under this name.
    pub fn is_taken(&self, name: &str) -> bool
        ensures { result ≡ is_taken self.now.library name.now }
    {
        name == "net" || is_router(self.library.as_slice(), name)
    }

    /// The names of the interfaces of all routers that were loaded, each at its number.
    pub fn names(&self) -> &NameTable
        ensures { result.now ≡ self.now.names }
    {
        &self.names
    }

    /// Reads a configuration, whose names are known from then on.
    pub fn read_router(&mut self, alloc: Global, bytes: &[u8]) -> Result<Router, ConfigFault>
        ensures read { IfOk result (Reads self.old.names bytes.now) }
        ensures names { IfOk result (λ router. self.new ≡ knowing self.old router) }
        ensures refused { IfErr result (IsFault self.old.names bytes.now) }
        ensures unchanged { OnErr result (self.new ≡ self.old) }
    {
        read_config(alloc, bytes, &mut self.names)
    }

    /// Adds a router, whose names are known, behind those loaded before.
    pub fn load(&mut self, name: Word, router: Router) -> Result<(), AllocError>
        ensures { OnOk result (self.new ≡ adding self.old name router) }
    {
        self.library.push(Loaded::new(name, router))?;
        Ok(())
    }

    /// Where the defined list of this name stands, of the router of this name.
    pub fn place_of(&self, router: &str, list: &str) -> Option<Place>
        ensures found { option_and_then (list_at self.now.library) result
            ≡ list_of self.now.library router.now list.now }
        ensures place { IfSome result (IsPlace self.now.library) }
    {
        place_of(self.library.as_slice(), router, list)
    }

    /// The list at a place.
    pub fn list(&self, place: Place) -> &Acl
        requires { IsPlace self.now.library place }
        ensures { Some result.now ≡ list_at self.now.library place }
    {
        list_at(self.library.as_slice(), place)
    }

    /// The defined list under the path ROUTER.acl.LIST.
    pub fn list_at_path(&self, parts: &[Text]) -> Option<&Acl>
        ensures { option_map (λ list. list.now) result ≡ list_at_path self.now.library parts.now }
    {
        list_at_path(self.library.as_slice(), parts)
    }

    /// Why the names of policies in an EXPLORE are refused.
    pub fn fault_of(&self, alloc: Global, explore: &Explore) -> Result<Option<Reason>, AllocError>
        ensures { IfOk result (λ fault. fault ≡ specs.explore_fault self.now.library explore.now) }
    {
        explore_fault(alloc, self.library.as_slice(), explore)
    }

    /// Keeps a question about the list at a place, for those that come to be asked of it.
    pub fn ask(&mut self, place: Place, verdict: Verdict, tests: Vec<Test>)
        requires place { IsPlace self.old.library place }
        requires packet { AllByRecursion IsOfPacket tests.items }
        ensures { (list : AccessList) → list_at self.old.library place ≡ Some list
            → self.new ≡ asking self.old (asked list.entries verdict tests.items) }
    {
        let known = self.names.len();
        self.kept = Some(Kept {
            place,
            verdict,
            tests,
            known,
        });
    }

    /// The question of the last EXPLORE.
    pub fn question(&self) -> Option<Question<'_>>
        ensures kept { option_map (λ question. posed
            question.entries.now question.verdict question.tests.now question.names) result
            ≡ self.now.question }
        ensures packet { IfSome result (λ question. AllByRecursion IsOfPacket question.tests.now) }
    {
        match &self.kept {
            Some(kept) => Some(Question {
                entries: self.list(kept.place).entries(),
                verdict: kept.verdict,
                tests: kept.tests.as_slice(),
                names: KnownNames::of(&self.names, kept.known),
            }),
            None => None,
        }
    }
}
