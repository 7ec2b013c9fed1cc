//! The trains of a made-up scene, by the words of a generator in order.
ghost use Rattle.std.specs.Prelude.{◌≡◌, ◌<◌, ◌≤◌, ◌+◌, ◌++◌, length, true, false, IfOk, OnOk};
ghost use Rattle.rail_gen.specs.MadeScenes.{drawn, coin, coins, train_words, train_of, trains_from, itinerary, eastward, westward, kind_name};

use crate::names::{name, route_in, route_out, train_name};
use rail_base::{Name, Seq, Time};
use rail_scene::SceneTrain;
use rand_core::utils::NextWord;
use rand_pcg::Lcg64Xsh32;
use std::alloc::{AllocError, Global};

/// The next word, modulo a number.
pub(crate) fn drawn(words: &mut Lcg64Xsh32, modulus: u32) -> u32
    requires { 0 < modulus }
    ensures value { result ≡ (drawn modulus words.old).0 }
    ensures below { result < modulus }
    ensures rest { words.new ≡ (drawn modulus words.old).1 }
{
    words.next_word() % modulus
}

/// Whether the next word modulo 2 is 1.
fn coin(words: &mut Lcg64Xsh32) -> bool
    ensures value { result ≡ (coin words.old).0 }
    ensures rest { words.new ≡ (coin words.old).1 }
{
    drawn(words, 2) == 1
}

/// So many of them in order.
fn coins(alloc: Global, words: &mut Lcg64Xsh32, count: u8) -> Result<Vec<bool>, AllocError>
    ensures value { IfOk result (λ all. all.items ≡ (coins count words.old).0) }
    ensures long { IfOk result (λ all. length all.items ≡ count) }
    ensures rest { OnOk result (words.new ≡ (coins count words.old).1) }
{
    let mut all = Vec::new(alloc);
    for _turn in 0..count {
        all.push(coin(words))?;
    }
    Ok(all)
}

/// The routes of a train to the east.
fn eastward(alloc: Global, tracks: &[bool]) -> Result<Vec<Name>, AllocError>
    requires { length tracks.now < 9 }
    ensures { IfOk result (λ routes. routes.items ≡ itinerary (length tracks.now) false tracks.now) }
{
    let mut routes = vec![in alloc; name(b"estart")]?;
    for (index, is_b) in tracks.iter().enumerate() {
        let k = index as u8 + 1;
        routes.push(route_in(b'e', k, *is_b))?;
        routes.push(route_out(b'e', k, *is_b))?;
    }
    Ok(routes)
}

/// The routes of a train to the west.
fn westward(alloc: Global, tracks: &[bool]) -> Result<Vec<Name>, AllocError>
    requires { length tracks.now < 9 }
    ensures { IfOk result (λ routes. routes.items ≡ itinerary (length tracks.now) true tracks.now) }
{
    let mut routes = vec![in alloc; name(b"wstart")]?;
    let count = tracks.len() as u8;
    for (index, is_b) in tracks.iter().enumerate() {
        let k = count - index as u8;
        routes.push(route_in(b'w', k, *is_b))?;
        routes.push(route_out(b'w', k, *is_b))?;
    }
    Ok(routes)
}

/// The routes of a train.
fn itinerary(alloc: Global, is_westbound: bool, tracks: &[bool]) -> Result<Vec<Name>, AllocError>
    requires { length tracks.now < 9 }
    ensures { IfOk result (λ routes. routes.items ≡ itinerary (length tracks.now) is_westbound tracks.now) }
{
    if is_westbound {
        westward(alloc, tracks)
    } else {
        eastward(alloc, tracks)
    }
}

/// The name of the train kind of a number below three.
fn kind_name(kind: u32) -> Name
    ensures { result ≡ kind_name kind }
{
    if kind == 0 {
        name(b"fast")
    } else if kind == 1 {
        name(b"local")
    } else {
        name(b"goods")
    }
}

/// Train number n, by the words of the generator.
fn train(alloc: Global, words: &mut Lcg64Xsh32, count: u8, n: u8) -> Result<SceneTrain, AllocError>
    requires count { count < 9 }
    requires number { n < 100 }
    ensures train { IfOk result (λ train. train ≡ train_of count n (train_words count words.old).0) }
    ensures rest { OnOk result (words.new ≡ (train_words count words.old).1) }
{
    let is_westbound = coin(words);
    let entry = drawn(words, 7_200);
    let kind = drawn(words, 3);
    let priority = drawn(words, 4);
    let tracks = coins(alloc, words, count)?;
    let routes = itinerary(alloc, is_westbound, tracks.as_slice())?;
    Ok(SceneTrain {
        name: train_name(n),
        kind: kind_name(kind),
        entry: Time(10 * u64::from(entry)),
        priority: priority as u8,
        routes: Seq::from_vec(routes),
    })
}

/// So many trains from number 1 on.
pub(crate) fn trains(
    alloc: Global,
    words: &mut Lcg64Xsh32,
    count: u8,
    total: u8,
) -> Result<Vec<SceneTrain>, AllocError>
    requires count { count < 9 }
    requires total { total < 99 }
    ensures { IfOk result (λ trains. trains.items ≡ trains_from count 1 total words.old) }
{
    let mut trains = Vec::new(alloc);
    for n in 1..total + 1 {
        trains.push(train(alloc, words, count, n)?)?;
    }
    Ok(trains)
}
