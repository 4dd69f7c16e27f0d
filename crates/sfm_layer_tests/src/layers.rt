// The layers of ranks with weights, made by calls, and an instance that has those of a graphic rank: the three edges of a triangle,
// of which the first weighs 3 and the others 1 each.
ghost use Rattle.std.specs.{Prelude.{◌≡◌, ◌^◌, ◌≤ℤ◌, length, pos, IfOk, IsTrue}, List.{All}};
ghost use Rattle.sfm_spec.specs.Bounds.{total_of};
ghost use Rattle.sfm_kind.specs.{Meanings.{kind_places, factor_of}, Layers.{IsRankKind, IsWeight, AreLayers}, Limits.{AreInBounds, HasRoomFor}};
ghost use Rattle.sfm_layer_tests.specs.Weighed.{AreThreeWeighed, IsOfThree};

use sfm_base::Memory;
use sfm_concave::Uniform;
use sfm_graphic::Graphic;
use sfm_kind::{Instance, Kind, Layers, Weighed};
use sfm_law::Term;
use sfm_simple::Weight;
use sfm_trial::{add, add_names};
use std::alloc::Global;

/// The layers of a rank that counts 1 for each independent element, whose weights are small.
fn made(alloc: Global, rank: Kind, weights: &[i128]) -> Result<Layers, Memory>
    requires rank { IsRankKind rank }
    requires number { factor_of rank ≡ pos 1 }
    requires each { length weights.now ≡ length (kind_places rank) }
    requires weights { All (IsWeight (10 ^ 15)) weights.now }
    requires small { total_of weights.now ≤ℤ pos (10 ^ 18) }
    ensures { IfOk result (λ r. AreLayers rank weights.now r) }
{
    Layers::new(alloc, rank, weights)
}

/// The rank of a triangle.
fn triangle(alloc: Global) -> Result<Kind, Memory>
    ensures { IfOk result (λ r. IsOfThree r) }
{
    let term = Graphic::new(alloc, &[0, 1, 2], 1, &[(0, 1), (1, 2), (0, 2)])?;
    Ok(Kind::Graphic(term))
}

/// The layers of the rank of a triangle with weights.
fn triangle_layers(alloc: Global) -> Result<Layers, Memory>
    ensures { IfOk result (λ r. AreThreeWeighed r) }
{
    let rank = triangle(alloc)?;
    made(alloc, rank, &[3, 1, 1])
}

/// The layers of a uniform rank of two elements that weigh 2 each, of which one is independent.
fn even_layers(alloc: Global) -> Result<Layers, Memory> {
    let term = Uniform::new(alloc, &[0, 1], 1, 1)?;
    made(alloc, Kind::Uniform(term), &[2, 2])
}

/// Whether there are so many layers, with these places.
fn has_places(layers: &Layers, places: &[&[usize]]) -> bool {
    if layers.count() != places.len() {
        return false;
    }
    for j in 0..places.len() {
        if layers.part(j).elements() != places[j] {
            return false;
        }
    }
    true
}

/// The places of the layers of a triangle: the edge that weighs more, and all.
const TRIANGLE: [&[usize]; 2] = [&[0], &[0, 1, 2]];

/// The places of the layer of two elements with the same weight.
const EVEN: [&[usize]; 1] = [&[0, 1]];

/// Whether some layers have these places.
fn are_made(layers: Result<Layers, Memory>, places: &[&[usize]]) -> bool {
    match layers {
        Ok(layers) => has_places(&layers, places),
        Err(_) => false,
    }
}

#[test]
fn layers_of_ranks(rt: HostRuntime) {
    assert!(rt; are_made(triangle_layers(rt.alloc()), &TRIANGLE));
    assert!(rt; are_made(even_layers(rt.alloc()), &EVEN));
}

/// What the layers of a rank with small weights bring.
fn weighed(alloc: Global, rank: &Kind, weights: &[i128]) -> Result<Weighed, Memory>
    requires rank { IsRankKind rank.now }
    requires each { length weights.now ≡ length (kind_places rank.now) }
    requires weights { All (IsWeight (10 ^ 15)) weights.now }
{
    rank.weigh(alloc, weights)
}

/// What the layers of a triangle bring.
fn triangle_weighed(alloc: Global) -> Result<Weighed, Memory> {
    let rank = triangle(alloc)?;
    weighed(alloc, &rank, &[3, 1, 1])
}

/// What the layer of two elements that weigh 2 each brings.
fn even_weighed(alloc: Global) -> Result<Weighed, Memory> {
    let term = Uniform::new(alloc, &[0, 1], 1, 1)?;
    weighed(alloc, &Kind::Uniform(term), &[2, 2])
}

/// Whether layers bring so many places and so much.
fn is_brought(weighed: Result<Weighed, Memory>, places: usize, size: i128) -> bool {
    match weighed {
        Ok(brought) => brought.places == places && brought.size == size,
        Err(_) => false,
    }
}

#[test]
fn what_layers_bring(rt: HostRuntime) {
    assert!(rt; is_brought(triangle_weighed(rt.alloc()), 4, 4));
    assert!(rt; is_brought(even_weighed(rt.alloc()), 2, 2));
}

/// The names of the elements.
const NAMES: [&str; 3] = ["a", "b", "c"];

/// Adds weights -4, -2 and -2, if they can be.
fn add_weight(alloc: Global, instance: &mut Instance) -> bool {
    match Weight::new(alloc, &[0, 1, 2], &[-4, -2, -2]) {
        Ok(term) => add(instance, Kind::Weight(term)),
        Err(_) => false,
    }
}

/// Whether an instance of one term has room for the layers of a triangle: four places, and a size of 5.
fn has_room(instance: &Instance) -> bool
    ensures names { IsTrue result → length instance.now.names ≡ 3 }
    ensures bounded { IsTrue result → AreInBounds (length instance.now.names) instance.now.terms }
    ensures room { IsTrue result → HasRoomFor instance.now.terms 4 (pos 5) }
{
    instance.terms().len() == 1 && instance.names_len() == 3 && instance.has_room(4, 5)
}

/// Adds the layers of a triangle, if there is room for them.
fn add_layers(instance: &mut Instance, layers: Layers) -> bool
    requires { AreThreeWeighed layers }
{
    if has_room(instance) {
        instance.add_layers(layers).is_ok()
    } else {
        false
    }
}

/// Adds the layers of a triangle, if they can be.
fn add_triangle(alloc: Global, instance: &mut Instance) -> bool {
    match triangle_layers(alloc) {
        Ok(layers) => add_layers(instance, layers),
        Err(_) => false,
    }
}

/// The instance of the weights and of a triangle; nothing where memory lacks.
pub(crate) fn instance(alloc: Global) -> Option<Instance> {
    let mut instance = Instance::new(alloc);
    instance.set_version2();
    if add_names(&mut instance, &NAMES)
        && add_weight(alloc, &mut instance)
        && add_triangle(alloc, &mut instance)
    {
        Some(instance)
    } else {
        None
    }
}

/// Whether an instance has a plain line and one of two layers.
fn has_layers(instance: &Instance) -> bool {
    instance.lines() == [0, 2].as_slice()
        && instance.terms().len() == 3
        && instance.support() == 7
        && instance.total_size() == 12
}

/// Takes the second line out, if there is one.
fn drop_second(instance: &mut Instance) -> bool {
    if instance.lines().len() < 2 {
        return false;
    }
    instance.drop_line(1);
    true
}

/// Whether an instance has one plain line.
fn is_plain(instance: &Instance) -> bool {
    instance.lines() == [0].as_slice()
        && instance.terms().len() == 1
        && instance.support() == 3
        && instance.total_size() == 8
}

/// Whether the instance has the layers of a triangle in one line, which is taken out as one.
fn has_one_line(alloc: Global) -> bool {
    match instance(alloc) {
        Some(mut instance) => {
            has_layers(&instance) && drop_second(&mut instance) && is_plain(&instance)
        }
        None => false,
    }
}

#[test]
fn layers_in_one_line(rt: HostRuntime) {
    assert!(rt; has_one_line(rt.alloc()));
}
