//! Laws on the images of several devices. Each stands on the contract of a function that does nothing.
ghost use Rattle.std.specs.Prelude.{◌≡◌, ◌↔◌, ℕ, List, map};
ghost use Rattle.ports.specs.Stops.{AreImages, IsStop};
ghost use Rattle.store_checks.specs.Causes.{Tell};
ghost use Rattle.store_rounds.specs.Images.{HaveImages, AreSettledAs, IsStopOfEach};

use ports::Disk;

/// Images of several devices are one of each. Where all devices tell their bytes and have no other images together, no
/// device has another.
pub fn images_are_of_each<D: Disk>()
    ensures each { (devices : List D) (images : List (List ℕ)) → AreImages (map D.state devices) images ↔ HaveImages D.state devices images }
    ensures settled { (devices : List D) (told : List (List ℕ)) → Tell D.state devices told → ((images : List (List ℕ)) → AreImages (map D.state devices) images → images ≡ told)
        → AreSettledAs D.state devices told }
{}

/// A stop of several devices in one beat is a stop of each in that beat; and where they are as they were, it leaves images
/// of them.
pub fn stop_is_of_each<D: Disk>()
    ensures each { (b : ℕ) (old new : List D) (images : List (List ℕ)) → IsStop b (map D.state old) (map D.state new) images → IsStopOfEach D.state b old new images }
    ensures idle { (b : ℕ) (devices : List D) (images : List (List ℕ)) → IsStop b (map D.state devices) (map D.state devices) images → AreImages (map D.state devices) images }
{}
