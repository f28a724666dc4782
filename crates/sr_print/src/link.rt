//! Links inside a line.
ghost use Rattle.std.specs.Prelude.{◌≡◌, ◌<◌, ◌++◌, OnOk, OnErr};
ghost use Rattle.sr_model.specs.Graph.{link_count};
ghost use Rattle.sr_print.specs.Links.{AreLinks, end_words, ends_text, named_link, link_text, link_word, link_words};
ghost use Rattle.sr_print.specs.Printed.{BeginsWith};

use crate::line::put_numbered;
use crate::number::{put_node, put_value};
use sr_labels::Net;
use sr_model::{LinkKey, LinkNo};
use std::alloc::AllocError;

/// Appends the ends of a link. After an error a part of them may stand there;
/// what stood before stays.
#[tactic(auto, unfolding(crate::specs::Links::ends_text))]
fn put_ends(key: &LinkKey, out: &mut Vec<u8>) -> Result<(), AllocError>
    ensures line { OnOk result (out.new.items ≡ out.old.items ++ ends_text key.now) }
    ensures err { OnErr result (BeginsWith out.old.items out.new.items) }
{
    key.from.put(out)?;
    out.push(b'>')?;
    key.to.put(out)
}

/// Appends `A>B#n`: the link's ends, and its number among the announced keys between them.
/// After an error a part of it may stand there; what stood before stays.
pub fn put_link_text(net: &Net, link: LinkNo, out: &mut Vec<u8>) -> Result<(), AllocError>
    requires { link.0 < link_count net.now.graph }
    ensures line { OnOk result (out.new.items ≡ out.old.items ++ link_text net.now link.0) }
    ensures err { OnErr result (BeginsWith out.old.items out.new.items) }
{
    let key = net.graph().link(link).key;
    put_ends(&key, out)?;
    put_numbered(b"#", net.place(link), out)
}

/// Appends the ends of a link, each as one more word. After an error a part of them may stand there;
/// what stood before stays.
#[tactic(auto, unfolding(crate::specs::Links::end_words))]
fn put_end_words(key: &LinkKey, out: &mut Vec<u8>) -> Result<(), AllocError>
    ensures line { OnOk result (out.new.items ≡ out.old.items ++ end_words key.now) }
    ensures err { OnErr result (BeginsWith out.old.items out.new.items) }
{
    put_node(key.from, out)?;
    put_node(key.to, out)
}

/// Appends ` A B n`: the link as a script names it, by its ends and its number among the announced keys between them.
/// After an error a part of it may stand there; what stood before stays.
pub fn put_link_name(net: &Net, link: LinkNo, out: &mut Vec<u8>) -> Result<(), AllocError>
    requires { link.0 < link_count net.now.graph }
    ensures line { OnOk result (out.new.items ≡ out.old.items ++ named_link net.now link.0) }
    ensures err { OnErr result (BeginsWith out.old.items out.new.items) }
{
    let key = net.graph().link(link).key;
    put_end_words(&key, out)?;
    put_value(net.place(link), out)
}

/// Appends a link as one more word. After an error a part of it may stand there;
/// what stood before stays.
#[tactic(auto, unfolding(crate::specs::Links::link_word))]
pub fn put_link(net: &Net, link: LinkNo, out: &mut Vec<u8>) -> Result<(), AllocError>
    requires { link.0 < link_count net.now.graph }
    ensures line { OnOk result (out.new.items ≡ out.old.items ++ link_word net.now link.0) }
    ensures err { OnErr result (BeginsWith out.old.items out.new.items) }
{
    out.push(b' ')?;
    put_link_text(net, link, out)
}

/// Appends links, each as one more word. After an error a part of them may stand there;
/// what stood before stays.
pub fn put_links(net: &Net, links: &[LinkNo], out: &mut Vec<u8>) -> Result<(), AllocError>
    requires { AreLinks net.now.graph links.now }
    ensures line { OnOk result (out.new.items ≡ out.old.items ++ link_words net.now links.now) }
    ensures err { OnErr result (BeginsWith out.old.items out.new.items) }
{
    for link in links {
        put_link(net, *link, out)?;
    }
    Ok(())
}
