// Tests of the kinds of term and of what they stand on, by their public calls: each kind with answers worked by hand. What a term
// is to answer stands in tables, as text (`facts`), so that a row costs no proof.
#![tactic(auto)]

#[cfg(test)]
mod assign;
#[cfg(test)]
mod concave;
#[cfg(test)]
mod facts;
#[cfg(test)]
mod graphs;
#[cfg(test)]
mod instances;
#[cfg(test)]
mod laminar;
#[cfg(test)]
mod numbers;
#[cfg(test)]
mod simple;
#[cfg(test)]
mod slots;
#[cfg(test)]
mod trial;
