//! The head and the foot of each page.

/// The head: the style of the page, and the script that shows one step at a time. If the browser runs no scripts, all
/// steps are shown, one below the other.
pub const HEAD: &[u8] = b"<!DOCTYPE html>
<html lang='en'>
<head>
<meta charset='utf-8'>
<meta name='viewport' content='width=device-width, initial-scale=1'>
<title>muxsim, step by step</title>
<style>
:root {
  color-scheme: light dark;
  --page: #ffffff; --side: #f6f8fa; --edge: #d0d7de; --text: #1f2328; --faint: #656d76; --here: #ddeeff;
  --gone: #b42318; --new: #1a7f37; --moved: #8250df;
}
body { margin: 0; background: var(--page); color: var(--text); font: 15px/1.5 system-ui, sans-serif }
section { padding: 0.5rem 1.25rem 1.5rem }
html:not(.stepping) section { overflow-x: auto }
h2 { margin: 0.5rem 0; font-size: 1.1rem }
pre { margin: 0; font: 13px/1.5 monospace; white-space: pre-wrap; overflow-wrap: anywhere }
pre b { font-size: 15px }
.gone { color: var(--gone) }
.new { color: var(--new) }
.moved { color: var(--moved) }
.waits { color: var(--faint) }
svg.muxsim { display: block }
svg.muxsim .page { fill: none }
svg.muxsim .is-gone:not(.way) > path { stroke: #b42318; stroke-width: 3 }
svg.muxsim .is-new:not(.way) > path { stroke: #1a7f37; stroke-width: 3 }
svg.muxsim .is-moved:not(.way) > path { stroke: #8250df; stroke-width: 3 }
svg.muxsim .way.is-new > path.halo { stroke: #8ee6a4; stroke-width: 9 }
@media screen and (prefers-color-scheme: dark) {
  :root {
    --page: #0d1117; --side: #161b22; --edge: #30363d; --text: #e6edf3; --faint: #8d96a0; --here: #1f3a5f;
    --gone: #ff7b72; --new: #3fb950; --moved: #bc8cff;
  }
  svg.muxsim { filter: invert(0.93) hue-rotate(180deg) }
}
nav, header { display: none }
@media screen {
  .stepping body { display: grid; grid-template: auto 1fr / 22rem 1fr; height: 100vh }
  .stepping nav {
    display: block; grid-row: 1 / 3; overflow-y: auto; background: var(--side); border-right: 1px solid var(--edge)
  }
  .stepping header {
    display: flex; gap: 0.75rem; align-items: center; padding: 0.5rem 1.25rem; border-bottom: 1px solid var(--edge)
  }
  .stepping main { overflow: auto }
  .stepping section:not(.current), .stepping h2 { display: none }
  .stepping section { box-sizing: border-box; width: max-content; min-width: 100% }
  .stepping pre { position: sticky; left: 1.25rem; width: calc(100vw - 26rem) }
  header input { flex: 1; min-width: 4rem }
  header button { font: inherit; padding: 0 0.75rem }
  header output { min-width: 8rem; text-align: right; color: var(--faint) }
  nav a {
    display: block; padding: 0 0.75rem; font: 13px/1.8 monospace; color: inherit; text-decoration: none;
    white-space: pre; overflow: hidden; text-overflow: ellipsis
  }
  nav span { display: inline-block; min-width: 2rem; color: var(--faint) }
  nav a:hover { background: var(--edge) }
  nav a.refused { color: var(--gone) }
  nav a.current { background: var(--here) }
}
@media print {
  section { break-inside: avoid }
  svg.muxsim { max-width: 100%; height: auto }
}
</style>
<script>
'use strict';
const looks = { '-': 'gone', '+': 'new', '~': 'moved' };

// Returns the class words of the part of a picture that a change names, and those of the place where the part is.
function wordsOf(change) {
  const [kind, a, b, c, d, e] = change;
  switch (kind) {
    case 'fd': return [`fd-${a}-${b}`, `stream stream-${c}-${d}`];
    case 'link': return [`link-${a}`, `stream stream-${d}-${e}`];
    case 'bind': return [`bind-${a}-${b}`, `stream stream-${a}-${c}`];
    case 'route': return [`route-${a}-${b}`, `driver-${a}`];
    case 'full': return [`full queue-${a}-${b}-${c}`, `stream stream-${a}-${b}`];
    case 'hung': return [`hung stream-${a}-${b}`, `stream stream-${a}-${b}`];
  }
  const [serial, place] = change.includes('->') ? [a, change.slice(6, 9)] : [d, [a, b, c]];
  return [`msg-${serial}`, `queue queue-${place.join('-')}`, `stream stream-${place[0]}-${place[1]}`];
}

// Marks the part of the picture that a change names, or, if the picture doesn't show the part, the place where it is.
function mark(section, look, change) {
  for (const words of wordsOf(change)) {
    const parts = section.getElementsByClassName(words);
    for (const part of parts) part.classList.add('is-' + look);
    if (parts.length > 0) return;
  }
}

// Gives each line of a step the look of its mark. Returns the first line.
function markLines(section) {
  const pre = section.querySelector('pre');
  const lines = pre.textContent.split('\\n');
  pre.textContent = '';
  lines.forEach((line, row) => {
    const [, sign, change] = line.match(/^  ([-+~]|waits) (.*)/) || [];
    const text = document.createElement(row === 0 ? 'b' : 'span');
    text.textContent = row === 0 ? line : '\\n' + line;
    if (sign) text.className = looks[sign] || 'waits';
    if (sign in looks) mark(section, looks[sign], change.split(' '));
    pre.append(text);
  });
  return lines[0];
}

function make(name, ...inside) {
  const element = document.createElement(name);
  element.append(...inside);
  return element;
}

addEventListener('DOMContentLoaded', () => {
  const steps = [...document.querySelectorAll('section')];
  const links = steps.map((step) => {
    const line = markLines(step), link = make('a', make('span', step.id));
    if (step !== steps[0]) link.append(' ' + line);
    link.href = '#' + step.id;
    link.title = line;
    if (/ = E[A-Z]+/.test(line)) link.className = 'refused';
    return link;
  });
  const nav = make('nav', ...links), back = make('button', '\\u25c0'), on = make('button', '\\u25b6');
  const slider = make('input'), where = make('output'), main = document.querySelector('main');
  let here = 0;

  // Shows the step that the address names, or the beginning, and as much of it as is needed to see what changed.
  function show() {
    [steps[here], links[here]].forEach((it) => it.classList.remove('current'));
    here = Math.max(0, steps.findIndex((step) => '#' + step.id === location.hash));
    [steps[here], links[here]].forEach((it) => it.classList.add('current'));
    links[here].scrollIntoView({ block: 'nearest' });
    main.scrollTo(0, 0);
    const changed = [...steps[here].querySelectorAll('svg [class*=is-]')].pop();
    if (changed) changed.scrollIntoView({ block: 'nearest', inline: 'nearest' });
    slider.value = here;
    where.value = here === 0 ? 'beginning' : `entry ${here} of ${steps.length - 1}`;
    back.disabled = here === 0;
    on.disabled = here === steps.length - 1;
  }

  function go(step) {
    if (steps[step]) location.replace('#' + steps[step].id);
  }

  back.title = 'back: left arrow key';
  on.title = 'forward: right arrow key';
  slider.title = 'step';
  slider.type = 'range';
  slider.max = steps.length - 1;
  slider.oninput = () => go(Number(slider.value));
  back.onclick = () => go(here - 1);
  on.onclick = () => go(here + 1);
  addEventListener('hashchange', show);
  addEventListener('load', show);
  addEventListener('keydown', (event) => {
    const way = { ArrowLeft: -1, ArrowRight: 1 }[event.key];
    if (way && !event.altKey && !event.ctrlKey && !event.metaKey) {
      event.preventDefault();
      go(here + way);
    }
  });

  // The pictures share one style: the others only cost time.
  document.querySelectorAll('section:not(:first-of-type) style').forEach((style) => style.remove());
  document.body.prepend(nav, make('header', back, slider, on, where));
  document.documentElement.classList.add('stepping');
  show();
});
</script>
</head>
<body>
<main>
";

/// The foot.
pub const FOOT: &[u8] = b"</main>
</body>
</html>
";
