// Trees, layers and the index as a sorted map, over memory as a list of nodes and cells. It is mathematics alone: specs/ and proofs/.
// specs/ is read in this order. One layer: Nodes, FreeNumbers, Tree, TreePut, Cut, PutInMemory, FindInMemory, Became. The entries of
// all layers, with the trees left out: Paths, Entries, EntriesPut, EntriesFound. All layers in memory: Cells, Layers, LayersPut,
// LayersFound, WholeTree. What it comes to stands in proofs/: WholeTree (put) and WholeCalls (clear, find, list, remove).
#![tactic(auto)]
