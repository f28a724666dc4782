//! The search: each waypoint is offered to the destinations that are pending, and then looked on from.
ghost use Rattle.std.specs.Prelude.{IfOk, OnOk};
ghost use Rattle.sr_encode.specs.Search.{IsSearching};
ghost use Rattle.sr_encode.specs.Aftermath.{AreInside};
ghost use Rattle.sr_encode.specs.Serve.{AreOffered, AreSearched, AreResolved, IsLater, AreHopsOf};

use crate::met::Met;
use crate::scene::Scene;
use crate::served::Served;
use crate::waypoint::Waypoint;
use sr_lanes::NodeBits;
use sr_post::Post;
use std::alloc::{AllocError, Global};

/// The queue of a search, and the place in it of the waypoint that serves each destination, by the number of its node, if
/// one does.
#[derive(Drop)]
pub(crate) struct Serving {
    pub(crate) queue: Vec<Waypoint>,
    pub(crate) places: Vec<Option<u16>>,
}

/// Goes through the queue, which the looks lengthen, until no destination is pending. All waypoints that are met are offered
/// before the search looks on from the next one.
fn explore(scene: &Scene, met: &mut Met, served: &mut Served) -> Result<(), AllocError>
    requires search { IsSearching scene.now met.old.queue.items met.old.unmet 0 0 }
    requires offered { AreOffered scene.now met.old.queue.items 0 served.old }
    ensures over { OnOk result (AreSearched scene.now met.new.queue.items served.new) }
    ensures later { OnOk result (IsLater served.old served.new) }
{
    let _graph = scene.graph();
    served.offer_from(scene, &met.queue, 0);
    let mut i = 0;
    'queue: while i < met.queue.len() {
        if served.is_over() {
            return Ok(());
        }
        let offered = met.queue.len();
        met.expand(scene, i)?;
        served.offer_from(scene, &met.queue, offered);
        i += 1;
    }
    Ok(())
}

/// The waypoints that serve the destinations. Those that keep a next hop, which `post` has, are served before the search.
pub(crate) fn search(
    alloc: Global,
    scene: &Scene,
    post: &Post,
    wanted: NodeBits,
) -> Result<Serving, AllocError>
    requires hops { AreHopsOf scene.now post.now.kept }
    requires wanted { AreInside scene.now wanted }
    ensures { IfOk result (λ found. AreResolved scene.now found.queue.items wanted found.places.items) }
{
    let mut met = Met::first(alloc, scene)?;
    let mut served = Served::by_hops(alloc, scene, &met.queue, post, wanted)?;
    explore(scene, &mut met, &mut served)?;
    Ok(Serving {
        queue: met.queue,
        places: served.places,
    })
}
