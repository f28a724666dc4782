//! The version before, from which a case is taken where it is steady.
ghost use Rattle.std.specs.Prelude.{◌≡◌, ◌↔◌, ◌<◌, true, List, Bool, Some, IfOk, IsTrue, MatchOption};
ghost use Rattle.std.specs.Arc.{arc_value};
ghost use Rattle.sr_graph.specs.Failed.{FailsAsLink};
ghost use Rattle.sr_model.specs.Case.{IsCase, IsFailedSet, source_of};
ghost use Rattle.sr_model.specs.Graph.{node_count};
ghost use Rattle.sr_model.specs.Walk.{IsRow};
ghost use Rattle.sr_laws.specs.Steady.{IsSteadyCase};
ghost use Rattle.sr_spf.specs.Trees.{AreTrees};
ghost use Rattle.sr_delta.specs.Moved.{AreMoved};
ghost use Rattle.sr_delta.specs.Changes.{AreChanges};
ghost use Rattle.sr_delta.specs.KeptTrees.{AreKeptTrees};
ghost use Rattle.sr_delta.specs.Partners.{ArePartners};
ghost use Rattle.sr_post.specs.Marks.{AreTails, AreWalks};
ghost use Rattle.sr_repair.specs.Solutions.{IsSolution};
ghost use Rattle.sr_repair.specs.KnownCase.{IsKnownCase};
ghost use Rattle.sr_repair.specs.Former.{IsRenumbering, IsSearched, StaySolved, StayKnown};

use crate::answers::Found;
use crate::computed::Computed;
use crate::known_case::KnownCase;
use crate::row::CaseRow;
use crate::solved::Solved;
use sr_delta::{Changes, OldCase, Staying, case_stays, is_steady, may_stay};
use sr_encode::Renumbering;
use sr_labels::Net;
use sr_lanes::NodeBits;
use sr_model::{Case, LinkNo, NodeNo};
use sr_post::walks;
use sr_spf::{Trees, are_in_place};
use std::alloc::{AllocError, Global};
use std::marker::Model;
use std::sync::Arc;

/// What was computed of the net before, with what differs from it to the new net: the nodes are the same.
#[derive(Drop)]
pub(crate) struct Former<'a> {
    computed: &'a Computed,
    net: &'a Net,
    changes: &'a Changes,
    staying: Staying,
    /// The trees of the new net.
    trees: &'a Trees,
    /// For each node those to which it isn't as far in the new net as in the old one.
    farther: &'a [NodeBits],
    /// For each node those at which some link to it begins in the old net.
    tails: &'a [NodeBits],
    /// Whether each link has its number in the new net too.
    in_place: bool,
}

impl<'a> Model for Former<'a> {
    ghost use Rattle.sr_repair.specs.Spared.{Passage};
    ghost use Rattle.sr_post.specs.Marks.{AreTails};
    ghost use Rattle.sr_repair.specs.Former.{AreMeasured, IsFormer};

    ghost Value = { Passage };

    ghost view = { λ f. record { old = f.computed.now; new = f.net.now } };

    ghost invariant = { λ f. IsFormer (record { old = f.computed.now; new = f.net.now }) f.changes.now f.staying f.in_place
        × AreMeasured (record { old = f.computed.now; new = f.net.now }) f.trees.now f.farther.now
        × AreTails f.computed.now.graph f.tails.now };
}

impl<'a> Former<'a> {
    /// What was computed of the net before, and what differs. The nodes are the same. `kept` are the tests of the trees that
    /// stay, `trees` are those of the new net, `farther` has for each node those to which it isn't as far as it was, and
    /// `tails` those at which some link to it begins in the old net.
    pub(crate) fn new(
        computed: &'a Computed,
        net: &'a Net,
        changes: &'a Changes,
        kept: &[bool],
        trees: &'a Trees,
        farther: &'a [NodeBits],
        tails: &'a [NodeBits],
    ) -> Former<'a>
        requires changes { AreChanges computed.now net.now changes.now × (changes.now.same ≡ true) }
        requires kept { AreKeptTrees computed.now net.now kept.now }
        requires trees { AreTrees net.now.graph trees.now }
        requires sets { AreMoved computed.now.graph net.now.graph farther.now (node_count computed.now.graph)
            × AreTails computed.now.graph tails.now }
        ensures { result ≡ record { old = computed.now; new = net.now } }
    {
        Former {
            computed,
            net,
            changes,
            staying: Staying::new(changes, kept),
            trees,
            farther,
            tails,
            in_place: are_in_place(changes.partners()),
        }
    }

    /// These distances from the source of a case without its failed links, kept by what differs from the new trees.
    fn row_over(&self, alloc: Global, old: Case, cells: &[u64]) -> Result<CaseRow, AllocError>
        requires steady { IsSteadyCase self.now.old self.now.new old }
        requires row { (x : List Bool) → IsFailedSet self.now.old.graph old x
            → IsRow self.now.old.graph x (source_of self.now.old.graph old) cells.now }
        ensures { IfOk result (λ row. row ≡ cells.now) }
    {
        let source = self.computed.net().graph().edge(old.link).from;
        CaseRow::new(alloc, self.trees.held_cells(source)?, cells)
    }

    /// How links are numbered in both nets, those of the node among them. These are the numbers of all in the new one.
    fn renumbering<'b>(&self, links: &'b [Option<LinkNo>], node: NodeNo) -> Renumbering<'b>
        requires node { node.0 < node_count self.now.old.graph }
        requires links { ArePartners self.now.old.graph self.now.new.graph links.now }
        ensures numbers { IsRenumbering self.now node.0 result }
        ensures links { result.links.now ≡ links.now }
    {
        Renumbering {
            links,
            before: LinkNo(self.computed.net().graph().links_from(node).first),
            after: LinkNo(self.net.graph().links_from(node).first),
        }
    }

    /// What was computed for an old case that is steady, by the new numbers of links. Where its source is as far from all
    /// nodes as it was in the whole graph too, and its lists name links by the same numbers, both versions share it; else the
    /// distances, which are these, are kept over the new trees, so that no version holds the trees of those before.
    fn moved(
        &self,
        alloc: Global,
        old: Case,
        solved: &Arc<Solved>,
        cells: &[u64],
    ) -> Result<Arc<Solved>, AllocError>
        requires steady { IsSteadyCase self.now.old self.now.new old }
        requires solved { IsSolution self.now.old old (arc_value solved.now) }
        requires cells { cells.now ≡ (arc_value solved.now).cells }
        ensures { IfOk result (λ moved. StaySolved self.now old (arc_value solved.now) (arc_value moved)) }
    {
        let source = self.computed.net().graph().edge(old.link).from;
        let numbers = self.renumbering(self.changes.partners(), source);
        let is_as_far = self.farther[source.0 as usize].is_empty();
        if is_as_far && solved.keeps_numbers(&numbers, self.in_place) {
            return Arc::try_clone(solved);
        }
        let row = self.row_over(alloc, old, cells)?;
        solved.renumbered(alloc, &numbers, row)
    }

    /// Whether the old case is steady. So is one that stays, which mostly costs less to tell.
    fn outlasts(&self, old: &OldCase<'_>) -> bool
        requires { old.now.net ≡ self.now.old }
        ensures { IsTrue result ↔ IsSteadyCase self.now.old self.now.new old.now.case }
    {
        if case_stays(self.changes, &self.staying, old, self.net) {
            return true;
        }
        is_steady(
            self.changes,
            &self.staying,
            self.farther,
            old,
            self.net,
            self.trees,
        )
    }

    /// The nodes on the walks of the old case, which are found where nobody has asked for them. Its distances without the
    /// failed links are these.
    fn walks_of(&self, old: Case, known: &KnownCase, cells: &[u64]) -> NodeBits
        requires case { IsCase self.now.old.graph old }
        requires known { IsKnownCase self.now.old old known.now }
        requires cells { cells.now ≡ (arc_value known.now.solved).cells }
        ensures { AreWalks self.now.old old result }
    {
        match known.walks {
            Some(walks) => walks,
            None => {
                let trees = self.computed.trees();
                walks(self.computed.net(), trees, old, cells, self.tails)
            }
        }
    }

    /// What is known of the old case, by the new numbers of links, if the case is steady. The nodes on its walks are asked
    /// for only where all that costs less to tell holds, and are kept from then on.
    fn known_of(
        &self,
        alloc: Global,
        old: Case,
        known: &KnownCase,
    ) -> Result<Option<KnownCase>, AllocError>
        requires case { IsCase self.now.old.graph old }
        requires known { IsKnownCase self.now.old old known.now }
        ensures { IfOk result (λ found. MatchOption found
            (IsSteadyCase self.now.old self.now.new old → ⊥)
            (λ kept. IsSteadyCase self.now.old self.now.new old
            × StayKnown self.now old known.now kept)) }
    {
        let net = self.computed.net();
        let cells = known.solved.cells(alloc)?;
        if !may_stay(self.changes, net, old, &cells) {
            return Ok(None);
        }
        let walks = self.walks_of(old, known, &cells);
        let was = OldCase::new(net, self.computed.trees(), old, &cells, walks);
        if !self.outlasts(&was) {
            return Ok(None);
        }
        let solved = self.moved(alloc, old, &known.solved, &cells)?;
        Ok(Some(KnownCase {
            solved,
            walks: Some(walks),
        }))
    }

    /// What is known of the case, if it is an old case that is steady and affects some destination.
    pub(crate) fn known(&self, alloc: Global, case: Case) -> Result<Option<KnownCase>, AllocError>
        requires case { IsCase self.now.new.graph case }
        requires own { FailsAsLink self.now.new.graph case → ⊥ }
        ensures { IfOk result (λ found. MatchOption found
            (IsSearched (Some self.now) self.now.new case)
            (IsKnownCase self.now.new case)) }
    {
        match self.changes.origin(case.link) {
            None => Ok(None),
            Some(link) => {
                let old = Case {
                    kind: case.kind,
                    link,
                };
                match self.computed.found(old) {
                    Found::Own(known) => self.known_of(alloc, old, known),
                    Found::Nothing => Ok(None),
                    Found::AsLink => Ok(None),
                }
            }
        }
    }
}
