//! What the passes over cases stand on.
ghost use Rattle.std.specs.Prelude.{◌≡◌, Option, None, Some};
ghost use Rattle.sr_spf.specs.Trees.{AreTrees};
ghost use Rattle.sr_repair.specs.Former.{IsSetting};

use crate::former::Former;
use sr_labels::Net;
use sr_spf::Trees;
use std::marker::Model;

/// A net with its trees, and the version before it, if there is one.
#[derive(Drop)]
pub(crate) struct Setting<'a> {
    pub(crate) net: &'a Net,
    pub(crate) trees: &'a Trees,
    pub(crate) former: Option<Former<'a>>,
}

impl<'a> Model for Setting<'a> {
    ghost use Rattle.sr_repair.specs.Former.{Setting, IsSetting};

    ghost Value = { Setting };

    ghost view = { λ s. record { net = s.net.now; trees = s.trees.now; former = s.former } };

    ghost invariant = { λ s. IsSetting (record { net = s.net.now; trees = s.trees.now; former = s.former }) };
}

impl<'a> Setting<'a> {
    /// A net with its trees, and no version before it.
    pub(crate) fn first(net: &'a Net, trees: &'a Trees) -> Setting<'a>
        requires { AreTrees net.now.graph trees.now }
        ensures { result ≡ record { net = net.now; trees = trees.now; former = None } }
    {
        Setting {
            net,
            trees,
            former: None,
        }
    }

    /// A net with its trees, after this version.
    pub(crate) fn after(net: &'a Net, trees: &'a Trees, former: Former<'a>) -> Setting<'a>
        requires trees { AreTrees net.now.graph trees.now }
        requires new { former.new ≡ net.now }
        ensures { result ≡ record { net = net.now; trees = trees.now; former = Some former.entry } }
    {
        Setting {
            net,
            trees,
            former: Some(former),
        }
    }
}
