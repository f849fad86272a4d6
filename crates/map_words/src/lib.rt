//! Words and laws of finite maps, and of the pairs with rising keys that code keeps in place of a map.
#![tactic(auto)]
