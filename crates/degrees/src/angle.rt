// Copyright 2014 Google Inc. All rights reserved.
// Copyright 2017 Jihyun Yu. All rights reserved.
//
// Licensed under the Apache License, Version 2.0 (the "License");
// you may not use this file except in compliance with the License.
// You may obtain a copy of the License at
//
//     http://www.apache.org/licenses/LICENSE-2.0
//
// Unless required by applicable law or agreed to in writing, software
// distributed under the License is distributed on an "AS IS" BASIS,
// WITHOUT WARRANTIES OR CONDITIONS OF ANY KIND, either express or implied.
// See the License for the specific language governing permissions and
// limitations under the License.
//
// An angle in degrees, as the double of its radians.
// ported from src/s1/angle.rs of s2 0.2.0, changed: only from Deg to Angle, on plain numbers.
ghost use Rattle.std.specs.Prelude.{◌≡◌};
ghost use Rattle.degrees.specs.Degrees.{from_degrees};

use consts::PI;

// PI / 180, rounded once.
const PER_DEGREE: f64 = PI / 180.0;

// The product with PI / 180, for any number whatever.
// Laws: Angles.per-degree (the factor is PI / 180, rounded once).
// Ruled out: of 180: 400921FB54442D17; of 1: 3F91DF46A2529D3A.
#[tactic(auto, unfolding(crate::specs::Degrees::from_degrees))]
pub fn from_degrees(x: f64) -> f64
    ensures { result ≡ from_degrees x }
{
    x * PER_DEGREE
}
